// Text put into an area of bytes, piece by piece. Each function answers the place after the piece;
// a piece that does not fit leaves the area as it is.
#![tactic(auto)]

ghost use Rattle.std.specs.Prelude.{◌≡◌, ◌%◌, min, length};
ghost use Rattle.io.specs.Counts.{IsPrefixLen};
ghost use Rattle.io.specs.Digits.{hex_digit_ascii};
ghost use Rattle.trace_text.specs.Text.{page, decimal, hex, shown_bits, spaced, put_float, put_each, put_number};
ghost use Rattle.trace_text.specs.Text.{put_text};

use std::array;

// A place, or the area's end where it lies behind that.
fn start_of(area: &[u8], at: usize) -> usize
    ensures { result ≡ min at (length area.now) }
{
    at.min(area.len())
}

// A text.
pub fn put(area: &mut [u8], at: usize, text: &[u8]) -> usize
    ensures prefix_len { IsPrefixLen result area.new }
    ensures result_after { page area.new result ≡ put_text (page area.old at) text.now }
{
    let start = start_of(area, at);
    if area.len() - start < text.len() {
        return start;
    }
    area[start..start + text.len()].copy_from_slice(text);
    start + text.len()
}

// A space and the decimal digits of n.
pub fn put_number(area: &mut [u8], at: usize, n: u64) -> usize
    ensures prefix_len { IsPrefixLen result area.new }
    ensures result_after { page area.new result ≡ put_number (page area.old at) n }
{
    let mut digits = [0u8; 20];
    let k = io::decimal(n, &mut digits);
    let mut text = [32u8; 21];
    let end = put(&mut text, 1, &digits[..k]);
    put(area, at, &text[..end])
}

// The lowest hexadecimal digit of w.
fn digit(w: u32) -> u8
    ensures { result ≡ hex_digit_ascii (w % 16) }
{
    match (w % 16) as u8 {
        d @ 0..=9 => b'0' + d,
        d => b'a' - 10 + d,
    }
}

fn hex_digits(w: u32) -> [u8; 8]
    ensures { result ≡ hex w }
{
    array::from_fn(|k| digit(w >> (28 - 4 * k)))
}

// The eight hexadecimal digits of w.
pub fn put_hex(area: &mut [u8], at: usize, w: u32) -> usize
    ensures prefix_len { IsPrefixLen result area.new }
    ensures result_after { page area.new result ≡ put_text (page area.old at) (hex w) }
{
    let text = hex_digits(w);
    put(area, at, &text)
}

// The bit pattern of x; 0x7fc00000 for a NaN.
pub fn shown_bits(x: f32) -> u32
    ensures { result ≡ shown_bits x }
{
    number::bits_of_f32(x)
}

// A space and the hexadecimal digits of x's bit pattern.
pub fn put_float(area: &mut [u8], at: usize, x: f32) -> usize
    ensures prefix_len { IsPrefixLen result area.new }
    ensures result_after { page area.new result ≡ put_float (page area.old at) x }
{
    let h = hex_digits(shown_bits(x));
    let text = [32, h[0], h[1], h[2], h[3], h[4], h[5], h[6], h[7]];
    put(area, at, &text)
}

// Each of some numbers, in order.
pub fn put_numbers(area: &mut [u8], at: usize, numbers: &[u64]) -> usize
    ensures prefix_len { IsPrefixLen result area.new }
    ensures result_after { page area.new result ≡ put_each put_number (page area.old at) numbers.now }
{
    let mut place = start_of(area, at);
    for n in numbers {
        place = put_number(area, place, *n);
    }
    place
}

// Each of some f32, in order.
pub fn put_floats(area: &mut [u8], at: usize, words: &[f32]) -> usize
    ensures prefix_len { IsPrefixLen result area.new }
    ensures result_after { page area.new result ≡ put_each put_float (page area.old at) words.now }
{
    let mut place = start_of(area, at);
    for x in words {
        place = put_float(area, place, *x);
    }
    place
}
