// Worked examples through the calls: ranges of indices, the values of a vertex, draws that are refused. Each line has a name and
// the answers: numbers in decimal, f32 as bit patterns. A draw answers its number, its count and the code that take_error then
// gives.
#![tactic(auto)]

use arrays::{COLOR_ARRAY, TEXTURE_COORD_ARRAY, TEXTURE0, VERTEX_ARRAY};
use buffers::STORE_BYTES;
use context::{Context, MatrixMode};
use examples_shown::{
    AT_COLORS, AT_FOURS, AT_PAIRS, BASE, BYTE, FLOAT, FOG, GUEST, PAIRS, RED, REST, TRIANGLE_FAN,
    TRIANGLE_STRIP, TRIANGLES, UNSIGNED_BYTE, X, Z,
};

fn range(base: u32, size: u32, ty: u32, pointer: u32, mode: u32, first: u32, count: u32) {
    let store = [0u8; STORE_BYTES];
    let c = examples_shown::vertices(Context::new(), size, ty, pointer);
    examples_shown::show_range(c, &store, base, mode, first, count, 0, X);
}

// Three bytes a vertex.
fn shape(pointer: u32, mode: u32, count: u32) {
    examples_shown::say_case(b"pointer, mode, count", pointer, mode, count);
    range(BASE, 3, BYTE, pointer, mode, 0, count);
}

// The bytes of all five components are asked for, though four are decoded.
fn five_floats(pointer: u32) {
    examples_shown::say_case(b"pointer, size, type", pointer, 5, FLOAT);
    range(BASE, 5, FLOAT, pointer, TRIANGLES, 0, 1);
}

// One byte a vertex from address 1 on: of five indices from 4294967293 on there are two, and a third would pass the last address.
fn view(base: u32, first: u32) {
    examples_shown::say_case(b"base, first, count", base, first, 5);
    range(base, 1, BYTE, 1, TRIANGLES, first, 5);
}

// The current pairs 1, 2 of unit 0, 2, 6 of unit 1 and 3, 7 of unit 2. A number below that of unit 0 is unit 0.
fn current_pairs() -> Context {
    let a = gles_arrays::set_multi_texcoord(examples_shown::positions(), 0, 1.0, 2.0);
    let b = gles_arrays::set_multi_texcoord(a.context, TEXTURE0 + 1, 2.0, 6.0);
    let c = gles_arrays::set_multi_texcoord(b.context, TEXTURE0 + 2, 3.0, 7.0);
    c.context
}

// A texture matrix that takes s, t to 2s + 1, 3t.
fn texture_matrix() -> Context {
    let a = gles_matrix::set_matrix_mode(current_pairs(), MatrixMode::Texture.into());
    let b = gles_matrix::translate(a.context, 1.0, 0.0, 0.0);
    let c = gles_matrix::scale(b.context, 2.0, 3.0, 1.0);
    c.context
}

// The matrix applies to the array of unit 0, to 0, 0 for a failed fetch too, and not to a current pair.
fn texture(pointer: u32, stages: u32) {
    let a = gles_arrays::set_texcoord_pointer(texture_matrix(), 2, BYTE, 0, pointer);
    let b = gles_arrays::set_client_state(a.context, TEXTURE_COORD_ARRAY, true);
    examples_shown::show(b.context, stages, PAIRS);
}

fn pairs(pointer: u32, stages: u32) {
    examples_shown::say_case(b"pointer, size, stages", pointer, 2, stages);
    texture(pointer, stages);
}

// The current red is 0.5. Two colours can be read, if the array that is enabled is theirs.
fn colors(array: u32) {
    let a = gles_arrays::set_color(examples_shown::positions(), [0.5, 0.25, 0.0, 1.0]);
    let b = gles_arrays::set_color_pointer(a.context, 4, UNSIGNED_BYTE, 0, AT_COLORS);
    let c = gles_arrays::set_client_state(b.context, array, true);
    examples_shown::show(c.context, 0, RED);
}

// The first of these positions has z = -0.0 afterwards.
fn turned(word: usize) {
    let a = gles_matrix::scale(
        examples_shown::vertices(Context::new(), 4, BYTE, AT_FOURS),
        1.0,
        1.0,
        -1.0,
    );
    examples_shown::show(a.context, 0, word);
}

// Twice the x of a vertex moved by 1.
fn projected() {
    let a = gles_matrix::translate(examples_shown::positions(), 1.0, 0.0, 0.0);
    let b = gles_matrix::set_matrix_mode(a.context, MatrixMode::Projection.into());
    let c = gles_matrix::scale(b.context, 2.0, 2.0, 2.0);
    examples_shown::show(c.context, 0, X);
}

fn draw_short(out: &mut [f32; 50]) -> u32 {
    let store = [0u8; STORE_BYTES];
    let guest = GUEST;
    let r = gles_draws::draw_arrays(
        examples_shown::positions(),
        &store,
        BASE,
        &guest,
        TRIANGLES,
        0,
        3,
        0,
        out,
    );
    r.number
}

fn say_ends(out: &[f32; 50]) {
    examples_shown::say_word(out, 0);
    examples_shown::say_word(out, 49);
    examples_shown::say(b"\n");
}

// An output that is one short is unchanged.
fn short_output() {
    let mut out = [7.0; 50];
    examples_shown::say_number(u64::from(draw_short(&mut out)));
    say_ends(&out);
}

fn short_store() {
    let store = [0u8; 65535];
    examples_shown::show_range(
        examples_shown::positions(),
        &store,
        BASE,
        TRIANGLES,
        0,
        3,
        0,
        X,
    );
}

fn ranges() {
    for (pointer, mode, count) in [
        (4138, 7, 3),
        (BASE, 7, 3),
        (BASE, 3, 3),
        (0, TRIANGLES, 3),
        (BASE, TRIANGLE_STRIP, 5),
        (BASE, TRIANGLE_FAN, 5),
        (BASE, TRIANGLES, 5),
        (BASE, TRIANGLE_STRIP, 2),
        (BASE, 99, 0),
    ] {
        shape(pointer, mode, count);
    }
    five_floats(4130);
    five_floats(4126);
    view(4294967247, 0);
    view(4294967246, 0);
    view(4294967246, 4294967293);
}

fn values() {
    for (pointer, stages) in [(AT_PAIRS, 5), (AT_PAIRS, 2), (AT_PAIRS, 16), (1, 1)] {
        pairs(pointer, stages);
    }
    examples_shown::say(b"colours, the third unreadable:");
    colors(COLOR_ARRAY);
    examples_shown::say(b"colour array disabled:");
    colors(VERTEX_ARRAY);
    examples_shown::say(b"z turned round:");
    turned(Z);
    examples_shown::say(b"fog depth:");
    turned(FOG);
    examples_shown::say(b"projection times modelview:");
    projected();
}

fn refusals() {
    examples_shown::say(b"vertex array disabled:");
    examples_shown::show(Context::new(), 0, X);
    examples_shown::say(b"store of 65535:");
    short_store();
    examples_shown::say(b"output of 50:");
    short_output();
    examples_shown::say(b"end of the triangle, rest:");
    examples_shown::show(examples_shown::positions(), 0, REST);
}

fn main() {
    ranges();
    values();
    refusals();
}
