// What DUMP prints: the state of a context, section by section.
#![tactic(auto)]

ghost use Rattle.std.specs.Prelude.{◌≡◌};
ghost use Rattle.trace_dump.specs.Sections.{has_section};

use arrays::{Arrays, Attributes};
use buffers::{Buffers, SLOT_BYTES, SLOT_COUNT};
use context::{Context, MatrixMode, Stacks};
use fetch::ArrayPointer;
use pipeline::{Pipeline, TextureUnit};
use stack::MatrixStack;

const STDOUT: i32 = 1;

// A choice as its enumerant.
fn code<T>(choice: T) -> u64
where
    u32: From<T>,
{
    u64::from(u32::from(choice))
}

// ---- matrix stacks

fn say_stack(i: u64, s: MatrixStack) {
    trace_answers::say_matrices(b"stack", &[i, s.depth as u64], s);
}

fn say_stacks(mode: MatrixMode, s: Stacks) {
    trace_answers::say_numbers(b"mode", &[code(mode)]);
    say_stack(0, s.modelview);
    say_stack(1, s.projection);
    say_stack(2, s.texture);
}

// ---- arrays

fn say_array(i: u64, a: ArrayPointer) {
    trace_answers::say_numbers(
        b"array",
        &[
            i,
            u64::from(a.enabled),
            u64::from(a.size),
            u64::from(a.ty),
            u64::from(a.stride),
            u64::from(a.pointer),
            u64::from(a.buffer),
        ],
    );
}

fn say_arrays(a: &Arrays) {
    say_array(0, a.vertex);
    say_array(1, a.color);
    say_array(2, a.normal);
    for (i, unit) in a.texcoord.iter().enumerate() {
        say_array(3 + i as u64, *unit);
    }
}

// Bindings and units in one line, which has a second name in it.
fn say_bound(array: u32, element: u32, client: u32, active: u32) {
    let mut line = [0u8; 512];
    let mut n = trace_text::put(&mut line, 0, b"bound");
    n = trace_text::put_numbers(&mut line, n, &[array as u64, element as u64]);
    n = trace_text::put(&mut line, n, b" units");
    n = trace_text::put_numbers(&mut line, n, &[client as u64, active as u64]);
    n = trace_text::put(&mut line, n, b"\n");
    io::write_all(STDOUT, &line[..n]);
}

// ---- buffers

fn say_bytes(name: u32, bytes: &[u8]) {
    let mut line = [0u8; 512];
    let mut n = trace_text::put(&mut line, 0, b"buffer");
    n = trace_text::put_numbers(&mut line, n, &[name as u64, bytes.len() as u64]);
    n = trace_text::put(&mut line, n, b" ");
    n = trace_text::put_hex(&mut line, n, trace_format::hash_of(bytes));
    n = trace_text::put(&mut line, n, b"\n");
    io::write_all(STDOUT, &line[..n]);
}

// Each live buffer, by its name: the name, its length and the hash of its bytes.
fn say_buffers(b: &Buffers, store: &[u8]) {
    let mut name = 0;
    for _ in 0..SLOT_COUNT {
        let Some(k) = b.next_live(name) else { return };
        name = b.slot_name(k);
        let len = b.slot_len(k) as usize;
        say_bytes(name, list_words::bytes_at(store, SLOT_BYTES * k, len));
    }
}

// ---- current values

fn say_attributes(a: &Attributes) {
    let color = a.color;
    trace_answers::say(b"color", &[], &color);
    for (u, p) in a.pairs.iter().enumerate() {
        trace_answers::say(b"pair", &[u as u64], &[p.s, p.t]);
    }
}

// ---- pipeline settings, as enumerants

fn say_unit(u: u64, t: TextureUnit) {
    let color = t.env_color;
    trace_answers::say(b"env", &[u, u64::from(t.enabled), code(t.env_mode)], &color);
}

fn say_pipeline(p: &Pipeline) {
    trace_answers::say_numbers(
        b"flags",
        &[
            u64::from(p.depth.test),
            u64::from(p.alpha.test),
            u64::from(p.blend.enabled),
            u64::from(p.cull.enabled),
            u64::from(p.fog.enabled),
        ],
    );
    trace_answers::say_numbers(
        b"codes",
        &[
            code(p.depth.func),
            code(p.alpha.func),
            code(p.blend.src),
            code(p.blend.dst),
            code(p.cull.mode),
            code(p.front_face),
            code(p.fog.mode),
        ],
    );
    trace_answers::say(
        b"floats",
        &[],
        &[
            p.alpha.reference,
            p.fog.density,
            p.fog.start,
            p.fog.end,
            p.depth.near,
            p.depth.far,
        ],
    );
    for (u, unit) in p.units.iter().enumerate() {
        say_unit(u as u64, *unit);
    }
}

// ---- sections

// Whether the word of a DUMP has section k: its bit k. A word has no bit above 31.
pub fn has_section(sections: u32, k: u32) -> bool
    ensures { result ≡ has_section sections k }
{
    if 31 < k {
        return false;
    }
    (sections >> k) % 2 == 1
}

// The sections of the state that a word has.
pub fn say_state(c: Context, store: &[u8], sections: u32) {
    trace_answers::say_numbers(b"DUMP", &[sections as u64]);
    if has_section(sections, 0) {
        say_stacks(c.mode, c.stacks);
    }
    if has_section(sections, 1) {
        say_arrays(&c.arrays);
        say_bound(
            c.buffers.array_buffer,
            c.buffers.element_buffer,
            c.arrays.client_active_texture,
            c.pipeline.active_texture,
        );
    }
    if has_section(sections, 2) {
        say_buffers(&c.buffers, store);
    }
    if has_section(sections, 3) {
        say_attributes(&c.attributes);
    }
    if has_section(sections, 4) {
        say_pipeline(&c.pipeline);
    }
}
