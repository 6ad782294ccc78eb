// Worked examples through the calls: indices in a list, in guest bytes and in buffers; buffer objects. The lines are as in crate examples.
#![tactic(auto)]

use buffers::{ARRAY_BUFFER, ELEMENT_ARRAY_BUFFER, STORE_BYTES};
use context::Context;
use examples_shown::{
    AT_INDICES, BASE, BYTE, GUEST, TRIANGLES, UNSIGNED_BYTE, UNSIGNED_INT, UNSIGNED_SHORT, X,
};

// Three indices, and a fourth that ends in no triangle.
fn list(indices: [u32; 4]) {
    let store = [0u8; STORE_BYTES];
    let guest = GUEST;
    let mut out = [7.0; 204];
    let r = gles_draws::draw_elements(
        examples_shown::positions(),
        &store,
        BASE,
        &guest,
        TRIANGLES,
        &indices,
        0,
        &mut out,
    );
    examples_shown::show_draw(r, &out, X);
}

fn show_indexed(
    c: Context,
    store: &[u8; STORE_BYTES],
    mode: u32,
    count: u32,
    ty: u32,
    pointer: u32,
) {
    let guest = GUEST;
    let mut out = [7.0; 204];
    let r = gles_draws::draw_elements_from_guest(
        c, store, BASE, &guest, mode, count, ty, pointer, 0, &mut out,
    );
    examples_shown::show_draw(r, &out, X);
}

fn indexed(ty: u32, pointer: u32, mode: u32, count: u32) {
    let store = [0u8; STORE_BYTES];
    examples_shown::say_case(b"type, pointer, mode", ty, pointer, mode);
    show_indexed(
        examples_shown::positions(),
        &store,
        mode,
        count,
        ty,
        pointer,
    );
}

// Buffer 1 bound and filled.
fn fill(c: Context, store: &mut [u8; STORE_BYTES], target: u32, data: [u8; 6]) -> Context {
    let a = gles_buffers::bind_buffer(c, target, 1);
    let b = gles_buffers::buffer_data(a.context, store, target, 6, &data, 0);
    b.context
}

// Indices in the element buffer.
fn elements(pointer: u32) {
    let mut store = [0u8; STORE_BYTES];
    let c = fill(
        examples_shown::positions(),
        &mut store,
        ELEMENT_ARRAY_BUFFER,
        [3, 0, 4, 0, 5, 0],
    );
    show_indexed(c, &store, TRIANGLES, 3, UNSIGNED_SHORT, pointer);
}

// A vertex array in buffer 1, which is then deleted: the array keeps its name.
fn deleted(store: &mut [u8; STORE_BYTES]) -> Context {
    let c = fill(Context::new(), store, ARRAY_BUFFER, [0, 0, 1, 0, 2, 0]);
    let a = gles_buffers::delete_buffers(examples_shown::vertices(c, 2, BYTE, 0), &[1]);
    a.context
}

// A draw of one triangle from buffers.
fn show_stored(c: Context, store: &[u8; STORE_BYTES]) {
    examples_shown::show_range(c, store, BASE, TRIANGLES, 0, 3, 0, X);
}

// The array reads the buffer again once the name is bound and filled.
fn revived(filled: bool) {
    let mut store = [0u8; STORE_BYTES];
    let mut c = deleted(&mut store);
    if filled {
        c = fill(c, &mut store, ARRAY_BUFFER, [3, 0, 4, 0, 5, 0]);
    }
    show_stored(c, &store);
}

// A name made at a refused target is live, and next is above it: it is bound where a new one finds no slot.
fn names() {
    let a = gles_buffers::bind_buffer(Context::new(), 0, 5);
    let b = gles_buffers::gen_buffers(a.context, 15);
    let c = gles_buffers::bind_buffer(b.context, ARRAY_BUFFER, 5);
    let d = gles_buffers::bind_buffer(b.context, ARRAY_BUFFER, 99);
    examples_shown::say_answers(a.number, b.first as usize, c.number);
    examples_shown::say_number(u64::from(d.number));
}

// The number of buffer_data.
fn sized(size: usize) -> u32 {
    let mut store = [0u8; STORE_BYTES];
    let a = gles_buffers::bind_buffer(Context::new(), ARRAY_BUFFER, 1);
    let b = gles_buffers::buffer_data(a.context, &mut store, ARRAY_BUFFER, size, b"", 0);
    b.number
}

fn indices() {
    examples_shown::say(b"list 5, 3, 1, 0:");
    list([5, 3, 1, 0]);
    examples_shown::say(b"list 0, 1, 2, 99:");
    list([0, 1, 2, 99]);
    for (ty, pointer, mode, count) in [
        (UNSIGNED_SHORT, BASE, 99, 0),
        (UNSIGNED_SHORT, 0, 99, 0),
        (UNSIGNED_SHORT, AT_INDICES, TRIANGLES, 3),
        (UNSIGNED_SHORT, 4141, TRIANGLES, 3),
        (UNSIGNED_BYTE, AT_INDICES, TRIANGLES, 3),
        (UNSIGNED_INT, AT_INDICES, TRIANGLES, 3),
    ] {
        indexed(ty, pointer, mode, count);
    }
    examples_shown::say(b"element buffer:");
    elements(0);
    examples_shown::say(b"past the element buffer:");
    elements(2);
}

fn buffers() {
    examples_shown::say(b"bind 5 at target 0, gen 15, bind 5, bind 99:");
    names();
    examples_shown::say(b"\ndata of 4096 and 4097 bytes:");
    for size in [4096, 4097] {
        examples_shown::say_number(u64::from(sized(size)));
    }
    examples_shown::say(b"\nbuffer deleted:");
    revived(false);
    examples_shown::say(b"name bound and filled:");
    revived(true);
}

fn main() {
    indices();
    buffers();
}
