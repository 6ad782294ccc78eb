// Client arrays and current values: the records, what they are at first, and one method for each kind of call on them.
#![tactic(auto)]

ghost use Rattle.std.specs.Prelude.{◌≡◌, ℕ, get_or};
ghost use Rattle.refusal.specs.Refusals.{answer};
ghost use Rattle.refusal.specs.RefusalsCode.{answered};
ghost use Rattle.refusal.specs.EnumerantsCode.{Decodes};
ghost use Rattle.fetch.specs.Fetch.{fresh_array};
ghost use Rattle.arrays.specs.Arrays.{fresh_arrays, array_of, put_array, pointer_set, enabled_set, array_kinds, arrays_answered, array_step};
ghost use Rattle.arrays.specs.Arrays.{client_state, client_unit};
ghost use Rattle.arrays.specs.Attributes.{no_pair, fresh_attributes, unit_of, attribute_step, AttributeCall};

use fetch::ArrayPointer;
use refusal::{Refusal, UnknownEnum};

// How many texture units there are.
pub const UNIT_COUNT: usize = 4;

// The arrays that a client state call names.
pub const VERTEX_ARRAY: u32 = 0x8074;

pub const NORMAL_ARRAY: u32 = 0x8075;

pub const COLOR_ARRAY: u32 = 0x8076;

pub const TEXTURE_COORD_ARRAY: u32 = 0x8078;

pub const TEXTURE0: u32 = 0x84C0;

// The seven arrays, and the client unit: the unit whose array a texture coordinate call is on.
#[repr(C)]
#[derive(Clone, Copy)]
pub struct Arrays {
    pub vertex: ArrayPointer,
    pub color: ArrayPointer,
    pub normal: ArrayPointer,
    pub texcoord: [ArrayPointer; UNIT_COUNT],
    pub client_active_texture: u32,
}

// The array that a call is on; of the texture coordinates the client unit's.
#[derive(Clone, Copy, Debug, PartialEq, Eq)]
pub enum ArrayKind {
    Vertex,
    Color,
    Normal,
    TexCoord,
}

impl TryFrom<u32> for ArrayKind {
    type Error = UnknownEnum;

    ghost try_from_gives = { λ code r. Decodes array_kinds code r };

    fn try_from(code: u32) -> Result<Self, UnknownEnum> {
        match code {
            VERTEX_ARRAY => Ok(ArrayKind::Vertex),
            NORMAL_ARRAY => Ok(ArrayKind::Normal),
            COLOR_ARRAY => Ok(ArrayKind::Color),
            TEXTURE_COORD_ARRAY => Ok(ArrayKind::TexCoord),
            _ => Err(UnknownEnum),
        }
    }
}

impl Arrays {
    pub fn new() -> Arrays
        ensures { result ≡ fresh_arrays }
    {
        let a = ArrayPointer::new();
        Arrays {
            vertex: a,
            color: a,
            normal: a,
            texcoord: [a; UNIT_COUNT],
            client_active_texture: 0,
        }
    }

    // The array of a unit.
    pub fn unit_array(&self, unit: usize) -> ArrayPointer
        ensures { result ≡ get_or self.now.texcoord unit fresh_array }
    {
        self.texcoord
            .get(unit)
            .copied()
            .unwrap_or(ArrayPointer::new())
    }

    fn array_of(&self, kind: ArrayKind) -> ArrayPointer
        ensures { result ≡ array_of kind self.now }
    {
        match kind {
            ArrayKind::Vertex => self.vertex,
            ArrayKind::Color => self.color,
            ArrayKind::Normal => self.normal,
            ArrayKind::TexCoord => self.unit_array(self.client_active_texture as usize),
        }
    }

    fn put_array(&mut self, kind: ArrayKind, array: ArrayPointer) -> Result<(), Refusal>
        ensures { answered result self.new ≡ arrays_answered (put_array kind array self.old) self.old }
    {
        match kind {
            ArrayKind::Vertex => self.vertex = array,
            ArrayKind::Color => self.color = array,
            ArrayKind::Normal => self.normal = array,
            ArrayKind::TexCoord => {
                let unit = self.client_active_texture as usize;
                if unit >= UNIT_COUNT {
                    return Err(Refusal::InvalidEnum);
                }
                self.texcoord[unit] = array;
            }
        }
        Ok(())
    }

    // An array set by a pointer call while `binding` is the array binding. Whether it is enabled stays.
    pub fn set_pointer(
        &mut self,
        kind: ArrayKind,
        binding: u32,
        size: u32,
        ty: u32,
        stride: u32,
        pointer: u32,
    ) -> Result<(), Refusal>
        ensures { answered result self.new ≡ arrays_answered (pointer_set kind size ty stride pointer binding self.old) self.old }
    {
        let array = ArrayPointer {
            size,
            ty,
            stride,
            pointer,
            buffer: binding,
            ..self.array_of(kind)
        };
        self.put_array(kind, array)
    }

    // An array switched on or off; its other fields stay.
    fn set_enabled(&mut self, kind: ArrayKind, on: bool) -> Result<(), Refusal>
        ensures { answered result self.new ≡ arrays_answered (enabled_set kind on self.old) self.old }
    {
        let mut array = self.array_of(kind);
        array.enabled = on;
        self.put_array(kind, array)
    }

    pub fn set_client_state(&mut self, array: u32, on: bool) -> Result<(), Refusal>
        ensures { (binding : ℕ) → answered result self.new ≡ array_step (client_state array on) binding self.old }
    {
        self.set_enabled(ArrayKind::try_from(array)?, on)
    }

    #[tactic(auto, unfolding(crate::specs::Arrays::array_step, crate::specs::Arrays::accepted_arrays))]
    pub fn set_client_active_texture(&mut self, unit: u32) -> Result<(), Refusal>
        ensures { (binding : ℕ) → answered result self.new ≡ array_step (client_unit unit) binding self.old }
    {
        if unit as usize >= UNIT_COUNT {
            return Err(Refusal::InvalidEnum);
        }
        self.client_active_texture = unit;
        Ok(())
    }
}

// Texture coordinates s and t.
#[repr(C)]
#[derive(Clone, Copy)]
pub struct Pair {
    pub s: f32,
    pub t: f32,
}

const NO_PAIR: Pair = Pair { s: 0.0, t: 0.0 };

// What a vertex has where an array is disabled: the current colour, and a pair for each unit.
#[repr(C)]
#[derive(Clone, Copy)]
pub struct Attributes {
    pub color: [f32; 4],
    pub pairs: [Pair; UNIT_COUNT],
}

// The unit that a code stands for: TEXTURE0 plus the unit, and a code below that is unit 0.
fn unit_of(code: u32) -> u32
    ensures { result ≡ unit_of code }
{
    code.saturating_sub(TEXTURE0)
}

#[tactic(auto, unfolding(crate::specs::Attributes::attribute_step))]
impl Attributes {
    pub fn new() -> Attributes
        ensures { result ≡ fresh_attributes }
    {
        Attributes {
            color: [1.0, 1.0, 1.0, 1.0],
            pairs: [NO_PAIR; UNIT_COUNT],
        }
    }

    // The current pair of a unit.
    pub fn unit_pair(&self, unit: usize) -> Pair
        ensures { result ≡ get_or self.now.pairs unit no_pair }
    {
        self.pairs.get(unit).copied().unwrap_or(NO_PAIR)
    }

    pub fn set_color(&mut self, color: [f32; 4])
        ensures { answer 0 self.new ≡ attribute_step (AttributeCall.color color) self.old }
    {
        self.color = color;
    }

    pub fn set_multi_texcoord(&mut self, unit: u32, s: f32, t: f32) -> Result<(), Refusal>
        ensures { answered result self.new ≡ attribute_step (AttributeCall.multi_texcoord unit s t) self.old }
    {
        let i = unit_of(unit) as usize;
        if i >= UNIT_COUNT {
            return Err(Refusal::InvalidEnum);
        }
        self.pairs[i] = Pair { s, t };
        Ok(())
    }
}
