// What the worked examples share: their guest bytes, a vertex array on them, draws, and the lines that show what a draw answers.
#![tactic(auto)]

ghost use Rattle.examples_shown.specs.Shown.{HasVertices, HasPositions};

use arrays::VERTEX_ARRAY;
use buffers::STORE_BYTES;
use context::{Context, DrawReply};

// Types.
pub const BYTE: u32 = 0x1400;

pub const UNSIGNED_BYTE: u32 = 0x1401;

pub const UNSIGNED_SHORT: u32 = 0x1403;

pub const UNSIGNED_INT: u32 = 0x1405;

pub const FLOAT: u32 = 0x1406;

// Modes.
pub const TRIANGLES: u32 = 4;

pub const TRIANGLE_STRIP: u32 = 5;

pub const TRIANGLE_FAN: u32 = 6;

// How many words a corner has. Words of a corner; the pairs of the first corner; words around the end of one triangle.
const CORNER_WORDS: usize = 17;

pub const X: usize = 0;

pub const Z: usize = 2;

pub const RED: usize = 4;

pub const FOG: usize = 16;

pub const PAIRS: usize = 17;

pub const REST: usize = 18;

// The guest bytes from address 4096 up to 4146: six positions with x = 0 to 5; the indices 2, 1, 0; three pairs 1, 2; the
// positions (-1, -1, 0, -1), (0, 0, 3, 1), (1, 0, -2, 1); two colours.
pub const BASE: u32 = 4096;

pub const AT_INDICES: u32 = 4114;

pub const AT_PAIRS: u32 = 4120;

pub const AT_FOURS: u32 = 4126;

pub const AT_COLORS: u32 = 4138;

pub const GUEST: [u8; 50] = *b"\
    \x00\x00\x00\x01\x00\x00\x02\x01\x00\x03\x01\x00\x04\x02\x00\x05\x02\x00\
    \x02\x00\x01\x00\x00\x00\
    \x01\x02\x01\x02\x01\x02\
    \xff\xff\x00\xff\x00\x00\x03\x01\x01\x00\xfe\x01\
    \xff\x00\x00\xff\x33\x00\x00\xff";

pub fn say(text: &[u8]) {
    io::write_all(1, text);
}

pub fn say_number(n: u64) {
    say(b" ");
    io::print_decimal(1, n);
}

pub fn say_word(out: &[f32], at: usize) {
    if at < out.len() {
        say_words(&out[at..at + 1]);
    }
}

fn say_words(words: &[f32]) {
    for x in words {
        say(b" ");
        io::print_hex(1, u64::from(number::bits_of_f32(*x)), 8);
    }
}

// Of one triangle its pairs or the words around its end, or else a word of each corner of the first three.
fn say_triangles(out: &[f32; 204], count: usize, word: usize) {
    match word {
        PAIRS => say_words(&out[8..16]),
        REST => say_words(&out[50..52]),
        _ => {
            for corner in out.chunks_exact(CORNER_WORDS).take(3 * count.min(3)) {
                say_word(corner, word);
            }
        }
    }
}

// A name and its numbers.
pub fn say_case(name: &[u8], a: u32, b: u32, c: u32) {
    say(name);
    for n in [a, b, c] {
        say_number(u64::from(n));
    }
    say(b":");
}

pub fn say_answers(number: u32, count: usize, code: u32) {
    say_number(u64::from(number));
    say_number(count as u64);
    say_number(u64::from(code));
}

pub fn show_draw(r: DrawReply, out: &[f32; 204], word: usize) {
    let e = gles_pipeline::take_error(r.context);
    say_answers(r.number, r.count, e.code);
    if 0 < r.count {
        say_triangles(out, r.count, word);
    }
    say(b"\n");
}

// A draw of the indices from `first` on.
pub fn show_range(
    c: Context,
    store: &[u8],
    base: u32,
    mode: u32,
    first: u32,
    count: u32,
    stages: u32,
    word: usize,
) {
    let guest = GUEST;
    let mut out = [7.0; 204];
    let r = gles_draws::draw_arrays(c, store, base, &guest, mode, first, count, stages, &mut out);
    show_draw(r, &out, word);
}

// A draw of one triangle.
pub fn show(c: Context, stages: u32, word: usize) {
    let store = [0u8; STORE_BYTES];
    show_range(c, &store, BASE, TRIANGLES, 0, 3, stages, word);
}

// The vertex array, at an address or in the array buffer if one is bound.
pub fn vertices(c: Context, size: u32, ty: u32, pointer: u32) -> Context
    ensures { HasVertices size ty pointer c result }
{
    let a = gles_arrays::set_vertex_pointer(c, size, ty, 0, pointer);
    let b = gles_arrays::set_client_state(a.context, VERTEX_ARRAY, true);
    b.context
}

// A fresh context with the six positions.
pub fn positions() -> Context
    ensures { HasPositions result }
{
    vertices(Context::new(), 3, BYTE, BASE)
}
