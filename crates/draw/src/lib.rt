// Drawing below the calls: the triangles in the output, the three draws. A draw answers how many triangles it wrote, or why it is refused.
#![tactic(auto)]

ghost use Rattle.std.specs.Prelude.{◌≡◌, ℕ, ◌*◌, ◌<◌, ◌≤◌, length};
ghost use Rattle.std.proofs.lemmas.List.Edits.{sets};
ghost use Rattle.vertex.specs.Scene.{Source};
ghost use Rattle.vertex.specs.SceneCode.{scene_in, index_list};
ghost use Rattle.vertex.specs.Questions.{list_number};
ghost use Rattle.assembly.specs.Triangles.{vertex_at, triangles_to, words_of};
ghost use Rattle.draw.specs.Draw.{triangles_of, draw_answer, draw_in, Draws};
ghost use Rattle.draw.specs.DrawCode.{drawn_from};

use corners::Primitive;
use refusal::Refusal;
use vertex::{DrawInputs, IndexList};

// Writes the first `count` triangles.
fn write_triangles<'a>(
    s: DrawInputs,
    store: &'a [u8],
    guest: &'a [u8],
    p: Primitive,
    list: IndexList<'a>,
    count: usize,
    out: &mut [f32],
)
    requires { 51 * count ≤ length out.old }
    ensures { out.new
        ≡ sets out.old 0 (words_of (triangles_to (vertex_at (scene_in s store.now guest.now)
        (index_list list.entry)) p count)) }
{
    assembly::write_corners(s, store, guest, p, list, 3 * count, out);
}

// Draws a list of indices.
fn draw_indices<'a>(
    s: DrawInputs,
    store: &'a [u8],
    guest: &'a [u8],
    mode: u32,
    list: IndexList<'a>,
    out: &mut [f32],
) -> Result<usize, Refusal>
    ensures { Draws (draw_answer (list_number (scene_in s store.now guest.now) mode (index_list list.entry))
        (length out.old) (triangles_of (scene_in s store.now guest.now) mode (index_list list.entry)))
        (drawn_from result) out.old out.new }
{
    assembly::validate(s, store, guest, mode, list)?;
    let p = Primitive::of_mode(mode);
    let n = list.len();
    let count = p.triangle_count(n);
    if out.len() / 51 < count {
        return Err(Refusal::NoRoom);
    }
    write_triangles(s, store, guest, p, list, count, out);
    Ok(count)
}

// Draws a borrowed list of indices.
pub fn draw_list<'a>(
    s: DrawInputs,
    store: &'a [u8],
    guest: &'a [u8],
    mode: u32,
    list: &[u32],
    out: &mut [f32],
) -> Result<usize, Refusal>
    ensures { (element : ℕ)
        → Draws (draw_in (scene_in s store.now guest.now) element mode (Source.list list.now) (length out.old))
        (drawn_from result) out.old out.new }
{
    vertex::check_view(s.base, guest.len(), s.stages)?;
    draw_indices(s, store, guest, mode, IndexList::List(list), out)
}

// Draws the indices from `first` on.
pub fn draw_range<'a>(
    s: DrawInputs,
    store: &'a [u8],
    guest: &'a [u8],
    mode: u32,
    first: u32,
    count: u32,
    out: &mut [f32],
) -> Result<usize, Refusal>
    ensures { (element : ℕ)
        → Draws (draw_in (scene_in s store.now guest.now) element mode (Source.range first count) (length out.old))
        (drawn_from result) out.old out.new }
{
    vertex::check_view(s.base, guest.len(), s.stages)?;
    let end = vertex::range_end(first, count);
    draw_indices(s, store, guest, mode, IndexList::Range(first, end), out)
}

// Draws indices that lie in the element buffer, or in guest memory where none is bound.
pub fn draw_stored<'a>(
    s: DrawInputs,
    store: &'a [u8],
    guest: &'a [u8],
    mode: u32,
    element: u32,
    count: u32,
    ty: u32,
    pointer: u32,
    out: &mut [f32],
) -> Result<usize, Refusal>
    ensures { Draws (draw_in (scene_in s store.now guest.now) element mode (Source.elements count ty pointer) (length out.old))
        (drawn_from result) out.old out.new }
{
    vertex::check_view(s.base, guest.len(), s.stages)?;
    let list = vertex::stored_indices(s, store, guest, element, count, ty, pointer)?;
    if count == 0 {
        return Ok(0);
    }
    draw_indices(s, store, guest, mode, list, out)
}
