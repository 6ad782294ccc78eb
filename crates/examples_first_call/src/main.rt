// A first program: three positions in guest bytes, moved by 1 along x and drawn as one triangle.
#![tactic(auto)]

use arrays::VERTEX_ARRAY;
use buffers::STORE_BYTES;
use context::Context;

const BYTE: u32 = 0x1400;

const TRIANGLES: u32 = 4;

// The guest's bytes from address AT on: positions (0, 0), (1, 0), (0, 1), a byte for each x and y.
const AT: u32 = 4096;

const GUEST: [u8; 6] = *b"\x00\x00\x01\x00\x00\x01";

// Prints x and y of the corner whose words begin at `at`, as bit patterns of f32.
fn say_corner(out: &[f32; 51], at: usize) {
    if at < 50 {
        io::print_hex(1, number::bits_of_f32(out[at]) as u64, 8);
        io::write_all(1, b" ");
        io::print_hex(1, number::bits_of_f32(out[at + 1]) as u64, 8);
        io::write_all(1, b"\n");
    }
}

fn main() {
    let store = [0u8; STORE_BYTES];
    let guest = GUEST;
    let mut out = [0.0; 51];
    let a = gles_arrays::set_vertex_pointer(Context::new(), 2, BYTE, 0, AT);
    let b = gles_arrays::set_client_state(a.context, VERTEX_ARRAY, true);
    let c = gles_matrix::translate(b.context, 1.0, 0.0, 0.0);
    let r = gles_draws::draw_arrays(c.context, &store, AT, &guest, TRIANGLES, 0, 3, 0, &mut out);
    io::print_decimal(1, r.number as u64);
    io::write_all(1, b" ");
    io::print_decimal(1, r.count as u64);
    io::write_all(1, b"\n");
    say_corner(&out, 0);
    say_corner(&out, 17);
    say_corner(&out, 34);
}
