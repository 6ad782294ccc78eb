// The records of a trace: whether a record keeps the format, words from bytes, areas that are filled by a rule.
#![tactic(auto)]

ghost use Rattle.std.specs.Prelude.{◌≡◌, ◌+◌, ◌-◌, ◌/◌, ◌<◌, max, length};
ghost use Rattle.std.specs.Float.{binary32};
ghost use Rattle.std.specs.Float.Ieee.{of_bits};
ghost use Rattle.trace_format.specs.Trace.{packed, head, has_size, limits_of, within, is_joined, byte_start, is_padded, has_padding, fault_of};
ghost use Rattle.trace_format.specs.Calls.{made_words, call_words, call_code};
ghost use Rattle.trace_format.specs.Fill.{filled, fill_byte, mark_bits, FirstTouched, place_or, word_of, hash_step, hash};

// Bounds: words of a record, bytes of the store's area and of the guest's, indices or names of a record, f32 of an output, bytes of an upload.
pub const MAX_WORDS: usize = 65600;

pub const STORE_AREA: usize = 65600;

pub const GUEST_AREA: usize = 262144;

pub const MAX_ENTRIES: u32 = 16384;

pub const MAX_OUTPUT: usize = 835584;

const MAX_UPLOAD: u32 = 8192;

const ANY: u32 = 0xffff_ffff;

// Why a reader stops at a record. Shape: the opcode is unknown, or the number of words is not the opcode's.
#[derive(Clone, Copy)]
pub enum Fault {
    Shape,
    Bound,
    Padding,
}

// The words that n bytes are packed in.
fn packed_words(n: u32) -> u32
    ensures { result ≡ packed n }
{
    n.div_ceil(4)
}

// n words and k more.
fn and_more(n: u32, k: u32) -> usize
    ensures { result ≡ n + k }
{
    n as usize + k as usize
}

// The first five words.
fn head_of(w: &[u32]) -> [u32; 5]
    ensures { result ≡ head w.now }
{
    let a = list_words::word_at(w, 0);
    let b = list_words::word_at(w, 1);
    let c = list_words::word_at(w, 2);
    let d = list_words::word_at(w, 3);
    [a, b, c, d, list_words::word_at(w, 4)]
}

// Whether a record of an opcode, with n words of which these are the first, has as many as it must.
fn has_size(code: u32, n: usize, h: [u32; 5]) -> bool
    ensures { result ≡ has_size code n h }
{
    match code {
        0x01 => n <= 16,
        0x02 => n == 0,
        0x03 => n == 1,
        0x04 => n == and_more(2, packed_words(h[1])),
        0x05 => n == 1,
        0x06 => n == and_more(2, packed_words(h[1])),
        0x07 => n == 3,
        0x08 => n == 1,
        0x18 => n == 9,
        0x19 => n == 4,
        0x20 => n == 1,
        0x22 => n == and_more(1, h[0]),
        0x23 => n == and_more(5, packed_words(h[4])),
        0x24 => n == and_more(3, packed_words(h[2])),
        0x60 => n == and_more(4, h[3]),
        0x61 => n == 5,
        0x62 => n == 6,
        0x70 => n == 18 + 16 * (h[1] as usize).min(15),
        0x71 => n == 1,
        0x72 => n == 1,
        0x73 => n == 1,
        0x7e => n == 1,
        0x7f => n == 1,
        _ => list_records::is_record(code, n),
    }
}

// The greatest value of each of the first five words.
fn limits_of(code: u32) -> [u32; 5]
    ensures { result ≡ limits_of code }
{
    match code {
        0x05 => [65600, ANY, ANY, ANY, ANY],
        0x06 => [ANY, 262144, ANY, ANY, ANY],
        0x07 => [ANY, 262144, ANY, ANY, ANY],
        0x22 => [MAX_ENTRIES, ANY, ANY, ANY, ANY],
        0x23 => [ANY, ANY, ANY, 1, MAX_UPLOAD],
        0x24 => [ANY, ANY, MAX_UPLOAD, ANY, ANY],
        0x34 => [ANY, 1, ANY, ANY, ANY],
        0x41 => [ANY, 1, ANY, ANY, ANY],
        0x60 => [ANY, ANY, 835584, MAX_ENTRIES, ANY],
        0x61 => [ANY, ANY, 835584, ANY, ANY],
        0x62 => [ANY, ANY, 835584, ANY, ANY],
        0x70 => [3, ANY, ANY, ANY, ANY],
        0x71 => [3, ANY, ANY, ANY, ANY],
        0x72 => [3, ANY, ANY, ANY, ANY],
        0x73 => [3, ANY, ANY, ANY, ANY],
        0x7e => [12, ANY, ANY, ANY, ANY],
        0x7f => [31, ANY, ANY, ANY, ANY],
        _ => [ANY, ANY, ANY, ANY, ANY],
    }
}

fn is_within(h: [u32; 5], most: [u32; 5]) -> bool
    ensures { result ≡ within 5 h most }
{
    h.iter().zip(&most).all(|(x, limit)| x <= limit)
}

// Bounds on two words together, and the least kind of an unsound context.
fn is_joined(code: u32, h: [u32; 5]) -> bool
    ensures { result ≡ is_joined code h }
{
    match code {
        0x04 => and_more(h[0], h[1]) <= 65600,
        0x23 => h[3] != 0 || h[4] == 0,
        0x7e => 0 < h[0],
        _ => true,
    }
}

// How many words stand before the bytes that a record ends in; 0 where it has none.
pub fn byte_start(code: u32) -> usize
    ensures { result ≡ byte_start code }
{
    match code {
        0x04 => 2,
        0x06 => 2,
        0x23 => 5,
        0x24 => 3,
        _ => 0,
    }
}

// Whether the bytes past the n in their last word are 0.
fn is_padded(n: u32, last: u32) -> bool
    ensures { result ≡ is_padded n last }
{
    match n % 4 {
        1 => last < 256,
        2 => last < 65536,
        3 => last < 16777216,
        _ => true,
    }
}

fn has_padding(code: u32, w: &[u32]) -> bool
    ensures { result ≡ has_padding code w.now }
{
    let start = byte_start(code);
    if start == 0 {
        return true;
    }
    let n = list_words::word_at(w, start - 1);
    is_padded(n, list_words::word_at(w, w.len().saturating_sub(1)))
}

// Whether a record keeps the format, or why a reader stops at it.
pub fn fault_of(code: u32, w: &[u32]) -> Result<(), Fault>
    ensures { result ≡ fault_of code w.now }
{
    let h = head_of(w);
    if !has_size(code, w.len(), h) {
        return Err(Fault::Shape);
    }
    if !is_within(h, limits_of(code)) || !is_joined(code, h) {
        return Err(Fault::Bound);
    }
    if !has_padding(code, w) {
        return Err(Fault::Padding);
    }
    Ok(())
}

// Byte i of an area filled by a seed.
fn fill_byte(i: u32, seed: u32) -> u8
    ensures { result ≡ fill_byte seed i }
{
    (i.wrapping_mul(2654435761).wrapping_add(seed) >> 24) as u8
}

// Fills the first n bytes of an area, or all.
pub fn fill(area: &mut [u8], n: u32, seed: u32)
    ensures { area.new ≡ filled (fill_byte seed) n area.old }
{
    let end = area.len().min(n as usize);
    for (i, x) in area[..end].iter_mut().enumerate() {
        *x = fill_byte(i as u32, seed);
    }
}

// Word i of bytes.
fn word_of(bytes: &[u8], i: usize) -> u32
    requires { i < length bytes.now / 4 }
    ensures { result ≡ word_of bytes.now i }
{
    let at = 4 * i;
    number::le32(bytes[at], bytes[at + 1], bytes[at + 2], bytes[at + 3])
}

// The words of bytes, as many as there are bytes for and as fit.
pub fn read_words(bytes: &[u8], w: &mut [u32])
    ensures { w.new ≡ filled (word_of bytes.now) (length bytes.now / 4) w.old }
{
    let end = w.len().min(bytes.len() / 4);
    for (i, x) in w[..end].iter_mut().enumerate() {
        *x = word_of(bytes, i);
    }
}

// Word i of an output before a draw: its bit pattern.
fn mark_bits(i: usize) -> u32
    ensures { result ≡ mark_bits i }
{
    0x5ead_0000 + (i % 65536) as u32
}

fn mark_at(i: usize) -> f32
    ensures { result ≡ of_bits binary32 (mark_bits i) }
{
    number::f32_of_bits(mark_bits(i))
}

// Marks an output, so that what a draw leaves can be told.
pub fn mark(out: &mut [f32])
    ensures { out.new ≡ filled (λ i. of_bits binary32 (mark_bits i)) (length out.old) out.old }
{
    for (i, x) in out.iter_mut().enumerate() {
        *x = mark_at(i);
    }
}

// The first word from a place on that is no longer marked.
pub fn first_touched(out: &[f32], start: usize) -> Option<usize>
    ensures { FirstTouched out.now start (place_or result (max start (length out.now))) }
{
    for i in start..out.len() {
        if number::bits_of_f32(out[i]) != mark_bits(i) {
            return Some(i);
        }
    }
    None
}

fn hash_step(h: u32, b: u8) -> u32
    ensures { result ≡ hash_step h b }
{
    (h ^ u32::from(b)).wrapping_mul(0x01000193)
}

// 32-bit FNV-1a of bytes.
pub fn hash_of(bytes: &[u8]) -> u32
    ensures { result ≡ hash bytes.now }
{
    let mut h: u32 = 0x811c9dc5;
    for b in bytes {
        h = hash_step(h, *b);
    }
    h
}

// ---- the calls of a trace as records of crate list_records

const IDENTITY_WORDS: [u32; 16] = [
    0x3f80_0000,
    0,
    0,
    0,
    0,
    0x3f80_0000,
    0,
    0,
    0,
    0,
    0x3f80_0000,
    0,
    0,
    0,
    0,
    0x3f80_0000,
];

// Words that are made for a call, of which it takes the first.
pub fn made_words(code: u32, w: &[u32]) -> [u32; 16]
    ensures { result ≡ made_words code w.now }
{
    let a = list_words::word_at(w, 0);
    let b = list_words::word_at(w, 1);
    let c = list_words::word_at(w, 2);
    let d = list_words::word_at(w, 4);
    match code {
        0x20 => [a, 0, 0, 0, 0, 0, 0, 0, 0, 0, 0, 0, 0, 0, 0, 0],
        0x23 => [a, b, 0, c, 20, 0, d, 0, 0, 0, 0, 0, 0, 0, 0, 0],
        0x24 => [a, b, 12, 0, c, 0, 0, 0, 0, 0, 0, 0, 0, 0, 0, 0],
        _ => IDENTITY_WORDS,
    }
}

// The words of the call of a record.
pub fn call_words<'a>(code: u32, w: &'a [u32], made: &'a [u32]) -> &'a [u32]
    ensures { result.now ≡ call_words code w.now made.now }
{
    match code {
        0x18 => list_words::first_words(w, 5),
        0x19 => made,
        0x20 => list_words::first_words(made, 2),
        0x22 => list_words::words_from(w, 1),
        0x23 => list_words::first_words(made, 8),
        0x24 => list_words::first_words(made, 6),
        _ => w,
    }
}

// The code of the call of a record.
pub fn call_code(code: u32) -> u32
    ensures { result ≡ call_code code }
{
    match code {
        0x19 => 0x13,
        _ => code,
    }
}
