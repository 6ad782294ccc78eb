// The lines of a trace's answers, written to standard output. A line is a name, numbers, words of f32.
#![tactic(auto)]

use stack::{Matrix, MatrixStack, SAVED_LIMIT};

const STDOUT: i32 = 1;

// The words of a triangle in an output.
const TRIANGLE_WORDS: usize = 51;

// Puts the rest of a line after its name and writes it.
fn finish(line: &mut [u8], place: usize, numbers: &[u64], words: &[f32]) {
    let mut n = trace_text::put_numbers(line, place, numbers);
    n = trace_text::put_floats(line, n, words);
    n = trace_text::put(line, n, b"\n");
    io::write_all(STDOUT, &line[..n]);
}

// A line of numbers alone.
pub fn say_numbers(name: &[u8], numbers: &[u64]) {
    say(name, numbers, &[]);
}

pub fn say(name: &[u8], numbers: &[u64], words: &[f32]) {
    let mut line = [0u8; 512];
    let n = trace_text::put(&mut line, 0, name);
    finish(&mut line, n, numbers, words);
}

// The line that ends the answers where a record does not keep the format.
pub fn say_error(record: u64, reason: &[u8]) {
    let mut line = [0u8; 512];
    let mut n = trace_text::put(&mut line, 0, b"error: record");
    n = trace_text::put_number(&mut line, n, record);
    n = trace_text::put(&mut line, n, b": ");
    n = trace_text::put(&mut line, n, reason);
    n = trace_text::put(&mut line, n, b"\n");
    io::write_all(STDOUT, &line[..n]);
}

// ---- calls

// The name of a record's call. A group's numbers past its last opcode have the names of the opcodes that follow, as in a table of all names
// with a place where each group starts. Below the groups it is the first name, in TAKE_ERROR's group always that, past the last name none.
fn name(code: u32) -> &'static [u8] {
    match code {
        0..=0x10 => b"MATRIX_MODE",
        0x11 => b"LOAD_IDENTITY",
        0x12 => b"LOAD",
        0x13 => b"MULT",
        0x14 => b"PUSH",
        0x15 => b"POP",
        0x16 => b"TRANSLATE",
        0x17 => b"SCALE",
        0x18 => b"ROTATE",
        0x19 => b"ROTATE_ZERO",
        0x1a => b"FRUSTUM",
        0x1b => b"ORTHO",
        0x1c | 0x20 => b"GEN",
        0x1d | 0x21 => b"BIND",
        0x1e | 0x22 => b"DELETE",
        0x1f | 0x23 => b"BUFFER_DATA",
        0x24 => b"BUFFER_SUB_DATA",
        0x25 | 0x30 => b"VERTEX_POINTER",
        0x26 | 0x31 => b"COLOR_POINTER",
        0x27 | 0x32 => b"NORMAL_POINTER",
        0x28 | 0x33 => b"TEXCOORD_POINTER",
        0x29 | 0x34 => b"CLIENT_STATE",
        0x2a | 0x35 => b"CLIENT_UNIT",
        0x2b | 0x36 => b"COLOR",
        0x2c | 0x37 => b"MULTI_TEXCOORD",
        0x2d | 0x38 | 0x40 => b"ACTIVE_UNIT",
        0x2e | 0x39 | 0x41 => b"CAPABILITY",
        0x2f | 0x3a | 0x42 => b"TEX_ENV",
        0x3b | 0x43 => b"TEX_ENV_COLOR",
        0x3c | 0x44 => b"DEPTH_FUNC",
        0x3d | 0x45 => b"ALPHA_FUNC",
        0x3e | 0x46 => b"BLEND_FUNC",
        0x3f | 0x47 => b"CULL_FACE",
        0x48 => b"FRONT_FACE",
        0x49 => b"FOG",
        0x4a => b"DEPTH_RANGE",
        0x4b | 0x50..=0x5f => b"TAKE_ERROR",
        0x4c | 0x60 => b"DRAW_LIST",
        0x4d | 0x61 => b"DRAW_ARRAYS",
        0x4e | 0x62 => b"DRAW_GUEST",
        _ => b"",
    }
}

// The answer of a call.
pub fn say_call(code: u32, numbers: &[u64]) {
    say_numbers(name(code), numbers);
}

// The answer of a call that is no draw: gen and take_error have a value.
pub fn say_reply(code: u32, number: u32, value: usize) {
    match code {
        0x20 | 0x50 => say_call(code, &[u64::from(number), value as u64]),
        _ => say_call(code, &[u64::from(number)]),
    }
}

// Says where a draw has changed a word behind its triangles.
pub fn say_touched(out: &[f32], count: usize) {
    if count <= out.len() / TRIANGLE_WORDS {
        if let Some(i) = trace_format::first_touched(out, TRIANGLE_WORDS * count) {
            say_numbers(b"TOUCHED", &[i as u64]);
        }
    }
}

// A triangle: its words with no name before them.
fn say_triangle(words: &[f32]) {
    if let Some((first, rest)) = words.split_first() {
        let mut line = [0u8; 512];
        let n = trace_text::put_hex(&mut line, 0, trace_text::shown_bits(*first));
        finish(&mut line, n, &[], rest);
    }
}

pub fn say_triangles(out: &[f32], count: usize) {
    for words in out.chunks_exact(TRIANGLE_WORDS).take(count) {
        say_triangle(words);
    }
}

// ---- matrix stacks

fn say_matrix(name: &[u8], numbers: &[u64], m: &Matrix) {
    say(name, numbers, &m.entries);
}

// The saved matrices, the oldest first. A stack whose saved count is above 15 has 15.
fn say_all_saved(s: &MatrixStack) {
    let end = s.depth.min(SAVED_LIMIT);
    for m in &s.saved[..end] {
        say_matrix(b"saved", &[], m);
    }
}

// A line with the current matrix, then the saved ones.
pub fn say_matrices(name: &[u8], numbers: &[u64], s: MatrixStack) {
    say_matrix(name, numbers, &s.current);
    say_all_saved(&s);
}

pub fn say_stack(s: MatrixStack) {
    say_matrices(b"STACK_SHOW", &[s.depth as u64], s);
}
