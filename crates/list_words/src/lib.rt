// Reading arguments from words and bytes.
#![tactic(auto)]

ghost use Rattle.std.specs.Prelude.{◌≡◌, ◌+◌, take, drop};
ghost use Rattle.list_words.specs.Words.{word_at, long_at, float_at, each_from, four_floats, matrix_floats, signed_at, four_signed, matrix_signed, bytes_at};

pub fn word_at(w: &[u32], i: usize) -> u32
    ensures { result ≡ word_at w.now i }
{
    w.get(i).copied().unwrap_or(0)
}

// The number of 64 bits in two words.
pub fn long_at(w: &[u32], i: u32) -> usize
    ensures { result ≡ long_at w.now i }
{
    let low = word_at(w, i as usize);
    let high = word_at(w, (i as usize) + 1);
    (low as usize) + 4294967296 * (high as usize)
}

pub fn float_at(w: &[u32], i: usize) -> f32
    ensures { result ≡ float_at w.now i }
{
    number::f32_of_bits(word_at(w, i))
}

// The first N words as f32. By a loop: the clause of `array::from_fn` leaves open the slice that its closure holds.
fn floats<const N: usize>(w: &[u32]) -> [f32; N]
    ensures { result ≡ each_from (float_at w.now) 0 N }
{
    let mut out = [0.0; N];
    for i in 0..N {
        out[i] = float_at(w, i);
    }
    out
}

pub fn four_floats(w: &[u32]) -> [f32; 4]
    ensures { result ≡ four_floats w.now }
{
    floats(w)
}

pub fn matrix_floats(w: &[u32]) -> [f32; 16]
    ensures { result ≡ matrix_floats w.now }
{
    floats(w)
}

// The signed number of a word.
pub fn signed_at(w: &[u32], i: usize) -> i32
    ensures { result ≡ signed_at w.now i }
{
    number::signed32(word_at(w, i))
}

// The first N words as signed numbers.
fn signed_numbers<const N: usize>(w: &[u32]) -> [i32; N]
    ensures { result ≡ each_from (signed_at w.now) 0 N }
{
    let mut out = [0; N];
    for i in 0..N {
        out[i] = signed_at(w, i);
    }
    out
}

pub fn four_signed(w: &[u32]) -> [i32; 4]
    ensures { result ≡ four_signed w.now }
{
    signed_numbers(w)
}

pub fn matrix_signed(w: &[u32]) -> [i32; 16]
    ensures { result ≡ matrix_signed w.now }
{
    signed_numbers(w)
}

// n bytes from a place on, or as many as there are.
pub fn bytes_at<'a>(bytes: &'a [u8], place: usize, n: usize) -> &'a [u8]
    ensures { result.now ≡ bytes_at bytes.now place n }
{
    let start = place.min(bytes.len());
    let end = start + n.min(bytes.len() - start);
    &bytes[start..end]
}

// The bytes whose place and number stand in the words from place i on. The place of a word has a narrow type, so that no sum passes it.
pub fn part_at<'a>(bytes: &'a [u8], w: &[u32], i: u16) -> &'a [u8]
    ensures { result.now ≡ bytes_at bytes.now (long_at w.now i) (long_at w.now (i + 2)) }
{
    bytes_at(bytes, long_at(w, i as u32), long_at(w, (i as u32) + 2))
}

// The words from place n on.
pub fn words_from<'a>(w: &'a [u32], n: usize) -> &'a [u32]
    ensures { result.now ≡ drop n w.now }
{
    let start = n.min(w.len());
    &w[start..]
}

// The first n words, or as many as there are.
pub fn first_words<'a>(w: &'a [u32], n: usize) -> &'a [u32]
    ensures { result.now ≡ take n w.now }
{
    let end = n.min(w.len());
    &w[..end]
}
