// Bytes and whole numbers to f32, and f32 to and from their bit patterns.
#![tactic(auto)]

ghost use Rattle.std.specs.Prelude.{◌≡◌, ◌<◌, [], ◌∷◌, pos, from_bits, to_bits};
ghost use Rattle.std.specs.Float.{binary32};
ghost use Rattle.number.specs.F32.{nearest};
ghost use Rattle.number.specs.Numbers.{little_endian, signed_of, fixed, clamped, clamped_unit, unorm, snorm, magnitude, whole_part};

// The numbers of two and of four little-endian bytes.
pub fn le16(a: u8, b: u8) -> u16
    ensures { result ≡ little_endian (a ∷ b ∷ []) }
{
    u16::from_le_bytes([a, b])
}

pub fn le32(a: u8, b: u8, c: u8, d: u8) -> u32
    ensures { result ≡ little_endian (a ∷ b ∷ c ∷ d ∷ []) }
{
    u32::from_le_bytes([a, b, c, d])
}

pub fn signed32(n: u32) -> i32
    ensures { result ≡ signed_of 32 n }
{
    n.cast_signed()
}

// The f32 equal to a number of 16 bits.
pub fn u16_to_f32(n: u16) -> f32
    ensures { result ≡ nearest (pos n) }
{
    n as f32
}

pub fn i16_to_f32(v: i16) -> f32
    ensures { result ≡ nearest v }
{
    v as f32
}

// A 16.16 fixed-point number.
pub fn fixed_to_f32(v: i32) -> f32
    ensures { result ≡ fixed v }
{
    std::num::nearest_i32_to_f32(v) / 65536.0
}

// x held within lo to hi; a NaN stays. (The library's `clamp` asks for lo at most hi.)
pub fn clamp(x: f32, lo: f32, hi: f32) -> f32
    ensures { result ≡ clamped lo hi x }
{
    if x < lo {
        return lo;
    }
    if x > hi {
        return hi;
    }
    x
}

// x held within 0 to 1; a NaN stays.
pub fn clamp_unit(x: f32) -> f32
    ensures { result ≡ clamped_unit x }
{
    clamp(x, 0.0, 1.0)
}

// Normalised components, by the largest value of their type.
pub fn unorm_to_f32(n: u16, max: u16) -> f32
    ensures { result ≡ unorm n max }
{
    u16_to_f32(n) / u16_to_f32(max)
}

pub fn snorm_to_f32(v: i16, max: u16) -> f32
    ensures { result ≡ snorm v max }
{
    clamp(i16_to_f32(v) / u16_to_f32(max), -1.0, 1.0)
}

// The f32 of a bit pattern; every NaN pattern gives a NaN. (`f32::from_bits` asks for the pattern of no NaN, and `to_bits` for no NaN.)
pub fn f32_of_bits(n: u32) -> f32
    ensures { result ≡ from_bits binary32 n }
{
    if 0x7f80_0000 < n % 0x8000_0000 {
        f32::NAN
    } else {
        f32::from_bits(n)
    }
}

// The bit pattern of x; 0x7fc00000 for a NaN.
pub fn bits_of_f32(x: f32) -> u32
    ensures { result ≡ to_bits binary32 x }
{
    if x.is_nan() {
        0x7fc0_0000
    } else {
        f32::to_bits(x)
    }
}

// x with its sign bit cleared: by the bit pattern, since a branch on the sign of a coordinate is hard to predict.
pub fn abs(x: f32) -> f32
    ensures { result ≡ magnitude x }
{
    f32_of_bits(bits_of_f32(x) % 0x8000_0000)
}

// The whole part of x as a u32: 0 for a NaN and below 1, the largest u32 above its range.
pub fn whole_u32(x: f32) -> u32
    ensures { result ≡ whole_part x }
{
    std::num::saturating_f32_to_u32(x)
}
