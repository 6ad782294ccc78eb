// The draws. Each takes the context by value and gives it back with the call's number and its count of triangles.
#![tactic(auto)]

ghost use Rattle.std.specs.Prelude.{◌≡◌, length};
ghost use Rattle.vertex.specs.Scene.{Source};
ghost use Rattle.context.specs.Calls.{Call};
ghost use Rattle.context.specs.Contract.{Did, Drew, draw_call, draw_reply, drawn_of};

use context::{Context, DrawReply};
use refusal::Refusal;

// The reply of a context that is not sound, or for a store of another length.
fn refuse(c: Context) -> DrawReply
    ensures { result ≡ draw_reply 1 0 c }
{
    DrawReply {
        number: u32::from(Refusal::Invalid),
        count: 0,
        context: c,
    }
}

// A draw of a borrowed list of indices.
pub fn draw_elements<'a>(
    c: Context,
    store: &'a [u8],
    base: u32,
    guest: &'a [u8],
    mode: u32,
    indices: &[u32],
    stages: u32,
    out: &mut [f32],
) -> DrawReply
    ensures did { Did (Call.draw (draw_call (Source.list indices.now) mode stages base guest.now (length out.old)))
        c store.now result.number result.context store.now }
    ensures drew { Drew (draw_call (Source.list indices.now) mode stages base guest.now (length out.old))
        c store.now (drawn_of result) out.old out.new }
{
    if !c.is_ready(store.len()) {
        return refuse(c);
    }
    let s = c.draw_inputs(base, stages);
    c.answer_draw(draw::draw_list(s, store, guest, mode, indices, out))
}

// A draw of the indices from `first` on.
pub fn draw_arrays<'a>(
    c: Context,
    store: &'a [u8],
    base: u32,
    guest: &'a [u8],
    mode: u32,
    first: u32,
    count: u32,
    stages: u32,
    out: &mut [f32],
) -> DrawReply
    ensures did { Did (Call.draw (draw_call (Source.range first count) mode stages base guest.now (length out.old)))
        c store.now result.number result.context store.now }
    ensures drew { Drew (draw_call (Source.range first count) mode stages base guest.now (length out.old))
        c store.now (drawn_of result) out.old out.new }
{
    if !c.is_ready(store.len()) {
        return refuse(c);
    }
    let s = c.draw_inputs(base, stages);
    c.answer_draw(draw::draw_range(s, store, guest, mode, first, count, out))
}

// A draw of indices in the element buffer, or in guest memory where none is bound.
pub fn draw_elements_from_guest<'a>(
    c: Context,
    store: &'a [u8],
    base: u32,
    guest: &'a [u8],
    mode: u32,
    count: u32,
    ty: u32,
    pointer: u32,
    stages: u32,
    out: &mut [f32],
) -> DrawReply
    ensures did { Did (Call.draw (draw_call (Source.elements count ty pointer) mode stages base guest.now (length out.old)))
        c store.now result.number result.context store.now }
    ensures drew { Drew (draw_call (Source.elements count ty pointer) mode stages base guest.now (length out.old))
        c store.now (drawn_of result) out.old out.new }
{
    if !c.is_ready(store.len()) {
        return refuse(c);
    }
    let s = c.draw_inputs(base, stages);
    let element = c.buffers.element_buffer;
    c.answer_draw(draw::draw_stored(s, store, guest, mode, element, count, ty, pointer, out))
}
