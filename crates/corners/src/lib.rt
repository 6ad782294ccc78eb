// Which places of a list of indices are the corners of triangles, and how many triangles there are.
#![tactic(auto)]

ghost use Rattle.std.specs.Prelude.{◌≡◌, ◌<◌, ◌≤◌};
ghost use Rattle.corners.specs.Places.{primitive_of, triangle_count, corners_of, corner_place};

#[derive(Clone, Copy, Debug, PartialEq, Eq)]
pub enum Primitive {
    Triangles,
    Strip,
    Fan,
}

// The places of a triangle's corners in the index list. No array: the rules for triangles speak of its corners by name.
#[derive(Clone, Copy, Debug, PartialEq, Eq)]
pub struct Corners {
    pub a: usize,
    pub b: usize,
    pub c: usize,
}

// Triangles and corners are numbered below this, so that no place passes 64 bits: an output has room for fewer.
const REACH: usize = 0x4000_0000_0000_0000;

impl Primitive {
    // The primitive of mode 4, 5 or 6. No TryFrom: the modes that no draw accepts are refused before, and give a fan here.
    pub fn of_mode(mode: u32) -> Primitive
        ensures { result ≡ primitive_of mode }
    {
        match mode {
            4 => Primitive::Triangles,
            5 => Primitive::Strip,
            _ => Primitive::Fan,
        }
    }

    // The corners of triangle t; 0 for each out of reach.
    pub fn corners(self, t: usize) -> Corners
        ensures { (t < 0x4000_0000_0000_0000 → result ≡ corners_of self t) × (0x4000_0000_0000_0000 ≤ t → result ≡ record { a = 0; b = 0; c = 0 }) }
    {
        if REACH <= t {
            return Corners { a: 0, b: 0, c: 0 };
        }
        let c = t + 2;
        match self {
            Primitive::Triangles => Corners {
                a: 3 * t,
                b: 3 * t + 1,
                c: 3 * t + 2,
            },
            Primitive::Strip if t % 2 == 0 => Corners { a: t, b: t + 1, c },
            Primitive::Strip => Corners { a: t + 1, b: t, c },
            Primitive::Fan => Corners { a: 0, b: t + 1, c },
        }
    }

    // The place in the index list of a corner, the corners of all triangles numbered from 0; 0 out of reach.
    pub fn corner_place(self, c: usize) -> usize
        ensures { (c < 0x4000_0000_0000_0000 → result ≡ corner_place self c) × (0x4000_0000_0000_0000 ≤ c → result ≡ 0) }
    {
        if REACH <= c {
            return 0;
        }
        if let Primitive::Triangles = self {
            return c;
        }
        let k = self.corners(c / 3);
        match c % 3 {
            0 => k.a,
            1 => k.b,
            _ => k.c,
        }
    }

    // How many triangles n indices make.
    pub fn triangle_count(self, n: usize) -> usize
        ensures { result ≡ triangle_count self n }
    {
        match self {
            Primitive::Triangles => n / 3,
            Primitive::Strip | Primitive::Fan => n.saturating_sub(2),
        }
    }
}
