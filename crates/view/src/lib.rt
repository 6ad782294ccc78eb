// The guest view, its read, and the draws that take one: each function calls another with the base and the bytes of the view in its place.
// The draws with `_at` make the view.
#![tactic(auto)]

ghost use Rattle.std.specs.Prelude.{◌≡◌, length};
ghost use Rattle.fetch.specs.Fetch.{in_guest, is_found, bytes_in};
ghost use Rattle.vertex.specs.Scene.{Source};
ghost use Rattle.context.specs.Calls.{Call};
ghost use Rattle.context.specs.Contract.{Did, Drew, draw_call, drawn_of};

use context::{Context, DrawReply};

// The guest view: the address of the first guest byte, and the guest bytes.
#[derive(Clone, Copy)]
pub struct GuestView<'a> {
    pub base: u32,
    pub bytes: &'a [u8],
}

impl<'a> GuestView<'a> {
    // Whether `len` bytes from `address` on can be read.
    pub fn can_read(self, address: u32, len: usize) -> bool
        ensures { result ≡ is_found (in_guest self.entry.base self.entry.bytes.now address len) }
    {
        fetch::can_read(self.base, self.bytes, address, len)
    }

    // The `len` bytes from `address` on, a part of the view's bytes; none where they cannot be read.
    pub fn read(self, address: u32, len: usize) -> &'a [u8]
        ensures { result.now ≡ bytes_in (in_guest self.entry.base self.entry.bytes.now address len) }
    {
        fetch::read(self.base, self.bytes, address, len)
    }
}

// A draw of a borrowed list of indices.
pub fn draw_elements<'a>(
    c: Context,
    store: &'a [u8],
    view: GuestView<'a>,
    mode: u32,
    indices: &[u32],
    stages: u32,
    out: &mut [f32],
) -> DrawReply
    ensures did { Did (Call.draw (draw_call (Source.list indices.now) mode stages view.entry.base view.entry.bytes.now (length out.old)))
        c store.now result.number result.context store.now }
    ensures drew { Drew (draw_call (Source.list indices.now) mode stages view.entry.base view.entry.bytes.now (length out.old))
        c store.now (drawn_of result) out.old out.new }
{
    gles_draws::draw_elements(c, store, view.base, view.bytes, mode, indices, stages, out)
}

// A draw of the indices from `first` on.
pub fn draw_arrays<'a>(
    c: Context,
    store: &'a [u8],
    view: GuestView<'a>,
    mode: u32,
    first: u32,
    count: u32,
    stages: u32,
    out: &mut [f32],
) -> DrawReply
    ensures did { Did (Call.draw (draw_call (Source.range first count) mode stages view.entry.base view.entry.bytes.now (length out.old)))
        c store.now result.number result.context store.now }
    ensures drew { Drew (draw_call (Source.range first count) mode stages view.entry.base view.entry.bytes.now (length out.old))
        c store.now (drawn_of result) out.old out.new }
{
    gles_draws::draw_arrays(
        c, store, view.base, view.bytes, mode, first, count, stages, out,
    )
}

// A draw of indices in the element buffer, or in guest memory where none is bound.
pub fn draw_elements_from_guest<'a>(
    c: Context,
    store: &'a [u8],
    view: GuestView<'a>,
    mode: u32,
    count: u32,
    ty: u32,
    pointer: u32,
    stages: u32,
    out: &mut [f32],
) -> DrawReply
    ensures did { Did (Call.draw (draw_call (Source.elements count ty pointer) mode stages view.entry.base view.entry.bytes.now (length out.old)))
        c store.now result.number result.context store.now }
    ensures drew { Drew (draw_call (Source.elements count ty pointer) mode stages view.entry.base view.entry.bytes.now (length out.old))
        c store.now (drawn_of result) out.old out.new }
{
    gles_draws::draw_elements_from_guest(
        c, store, view.base, view.bytes, mode, count, ty, pointer, stages, out,
    )
}

// ---- for callers that hold a base address and bytes: each makes the view and calls the draw that takes it
// Their arguments stay apart, one for one those of the calls of OpenGL ES and of the contracts.

// A draw of a borrowed list of indices.
pub fn draw_elements_at<'a>(
    c: Context,
    store: &'a [u8],
    base: u32,
    guest: &'a [u8],
    mode: u32,
    indices: &[u32],
    stages: u32,
    out: &mut [f32],
) -> DrawReply
    ensures did { Did (Call.draw (draw_call (Source.list indices.now) mode stages base guest.now (length out.old)))
        c store.now result.number result.context store.now }
    ensures drew { Drew (draw_call (Source.list indices.now) mode stages base guest.now (length out.old))
        c store.now (drawn_of result) out.old out.new }
{
    draw_elements(
        c,
        store,
        GuestView { base, bytes: guest },
        mode,
        indices,
        stages,
        out,
    )
}

// A draw of the indices from `first` on.
pub fn draw_arrays_at<'a>(
    c: Context,
    store: &'a [u8],
    base: u32,
    guest: &'a [u8],
    mode: u32,
    first: u32,
    count: u32,
    stages: u32,
    out: &mut [f32],
) -> DrawReply
    ensures did { Did (Call.draw (draw_call (Source.range first count) mode stages base guest.now (length out.old)))
        c store.now result.number result.context store.now }
    ensures drew { Drew (draw_call (Source.range first count) mode stages base guest.now (length out.old))
        c store.now (drawn_of result) out.old out.new }
{
    draw_arrays(
        c,
        store,
        GuestView { base, bytes: guest },
        mode,
        first,
        count,
        stages,
        out,
    )
}

// A draw of indices in the element buffer, or in guest memory where none is bound.
pub fn draw_elements_from_guest_at<'a>(
    c: Context,
    store: &'a [u8],
    base: u32,
    guest: &'a [u8],
    mode: u32,
    count: u32,
    ty: u32,
    pointer: u32,
    stages: u32,
    out: &mut [f32],
) -> DrawReply
    ensures did { Did (Call.draw (draw_call (Source.elements count ty pointer) mode stages base guest.now (length out.old)))
        c store.now result.number result.context store.now }
    ensures drew { Drew (draw_call (Source.elements count ty pointer) mode stages base guest.now (length out.old))
        c store.now (drawn_of result) out.old out.new }
{
    draw_elements_from_guest(
        c,
        store,
        GuestView { base, bytes: guest },
        mode,
        count,
        ty,
        pointer,
        stages,
        out,
    )
}
