// Vertex assembly: the elements of arrays, the vertex of an index, the search for a position that cannot be fetched, corners in the output.
#![tactic(auto)]

ghost use Rattle.std.specs.Prelude.{◌≡◌, Bool, true, false, List, ℕ, ◌+◌, ◌-◌, ◌*◌, ◌/◌, ◌^◌, ◌<◌, ◌≤◌, min, length, get_or, take, drop};
ghost use Rattle.std.proofs.lemmas.List.Edits.{sets};
ghost use Rattle.number.specs.Numbers.{little_endian};
ghost use Rattle.buffers.specs.Bounded.{first};
ghost use Rattle.buffers.specs.Objects.{contents_of};
ghost use Rattle.corners.specs.Places.{corner_place};
ghost use Rattle.fetch.specs.Decode.{component_bytes, unsigned_component, signed_component, component_of, component, vector_of};
ghost use Rattle.fetch.specs.Fetch.{last_address, element_bytes, stride_of};
ghost use Rattle.fetch.specs.FetchCode.{part_source};
ghost use Rattle.vertex.specs.SceneCode.{scene_in, index_list};
ghost use Rattle.vertex.specs.Vertex.{element_of, object_position, color_of, components_or, origin, has_stage, pair_from, transformed_pair};
ghost use Rattle.vertex.specs.Vertex.{unit_array, pair_of, pair_words, texcoords_of, vertex_of, four, vertex_words};
ghost use Rattle.vertex.specs.Questions.{fails, has_vertices, list_number};
ghost use Rattle.refusal.specs.Refusals.{number_in};
ghost use Rattle.assembly.specs.ElementsCode.{OneTwoFour, missing_at, location_of, Prepares, PreparesFor, Plans};
ghost use Rattle.assembly.specs.Triangles.{vertex_at, triangles_to, words_of};
ghost use Rattle.assembly.specs.CornersCode.{corner_words};

use arrays::Pair;
use corners::Primitive;
use fetch::{ArrayPointer, FetchFailure, Fetched, Memory, Vec4};
use refusal::Refusal;
use vertex::{DrawInputs, IndexList, Vertex};

// Bytes of a component, 0 for an unknown type. A type stays a number: a const parameter takes no enum.
#[tactic(auto, unfolding(fetch::specs::Decode::component_bytes))]
fn component_bytes(ty: u32) -> u32
    ensures { result ≡ component_bytes ty }
{
    match ty {
        0x1400 | 0x1401 => 1,
        0x1402 | 0x1403 => 2,
        0x1406 | 0x140C => 4,
        _ => 0,
    }
}

// The little-endian number of 1, 2 or 4 bytes.
fn number_at(s: &[u8], at: usize, width: u32) -> u32
    requires { (at + width ≤ length s.now) × OneTwoFour width }
    ensures { (result ≡ little_endian (take width (drop at s.now))) × (result < 256 ^ width) }
{
    match width {
        1 => u32::from(s[at]),
        2 => u32::from(number::le16(s[at], s[at + 1])),
        _ => number::le32(s[at], s[at + 1], s[at + 2], s[at + 3]),
    }
}

fn signed_component(v: i16, max: u16, normalize: bool) -> f32
    ensures { result ≡ signed_component normalize max v }
{
    if normalize {
        number::snorm_to_f32(v, max)
    } else {
        number::i16_to_f32(v)
    }
}

fn unsigned_component(n: u16, max: u16, normalize: bool) -> f32
    ensures { result ≡ unsigned_component normalize max n }
{
    if normalize {
        number::unorm_to_f32(n, max)
    } else {
        number::u16_to_f32(n)
    }
}

// A component from its number.
fn convert(ty: u32, normalize: bool, n: u32) -> f32
    requires { n < 256 ^ component_bytes ty }
    ensures { result ≡ component_of ty normalize n }
{
    match ty {
        0x1406 => number::f32_of_bits(n),
        0x140C => number::fixed_to_f32(number::signed32(n)),
        0x1400 => signed_component(i16::from((n as u8).cast_signed()), 127, normalize),
        0x1402 => signed_component((n as u16).cast_signed(), 32767, normalize),
        0x1401 => unsigned_component(n as u16, 255, normalize),
        _ => unsigned_component(n as u16, 65535, normalize),
    }
}

// Component i of an element's bytes, or `other` where it is absent.
fn component_at(part: &[u8], ty: u32, size: u32, normalize: bool, i: u32, other: f32) -> f32
    requires { (length part.now ≡ component_bytes ty * size) × (0 < component_bytes ty) × (i < 4) }
    ensures { result ≡ component ty size normalize part.now i other }
{
    if size <= i {
        return other;
    }
    let width = component_bytes(ty);
    let n = number_at(part, (width * i) as usize, width);
    convert(ty, normalize, n)
}

// The four components of an element's bytes. The type is a constant in each call of component_at, so that the compiler inlines it: of each component only
// the size is tested.
fn components<const TY: u32>(part: &[u8], size: u32, normalize: bool) -> Vec4
    requires { (length part.now ≡ component_bytes TY * size) × (0 < component_bytes TY) }
    ensures { result ≡ vector_of TY size normalize part.now }
{
    let x = component_at(part, TY, size, normalize, 0, 0.0);
    let y = component_at(part, TY, size, normalize, 1, 0.0);
    let z = component_at(part, TY, size, normalize, 2, 0.0);
    let w = component_at(part, TY, size, normalize, 3, 1.0);
    Vec4 { x, y, z, w }
}

// The same by type. It hands its slice to no function that is not inlined: the slice would be copied through memory.
fn vector(part: &[u8], ty: u32, size: u32, normalize: bool) -> Vec4
    requires { (length part.now ≡ component_bytes ty * size) × (0 < component_bytes ty) }
    ensures { result ≡ vector_of ty size normalize part.now }
{
    match ty {
        0x1406 => components::<0x1406>(part, size, normalize),
        0x1402 => components::<0x1402>(part, size, normalize),
        0x1401 => components::<0x1401>(part, size, normalize),
        0x140C => components::<0x140C>(part, size, normalize),
        0x1400 => components::<0x1400>(part, size, normalize),
        _ => components::<0x1403>(part, size, normalize),
    }
}

// The same with the types FIRST and SECOND, the commonest of a kind of array, in the caller's own code, the others by a call.
// Each way out is a return of its own, so that only a call's components pass through memory.
fn components_by<const NORMALIZE: bool, const FIRST: u32, const SECOND: u32>(
    part: &[u8],
    ty: u32,
    size: u32,
) -> Vec4
    requires { (length part.now ≡ component_bytes ty * size) × (0 < component_bytes ty) }
    ensures { result ≡ vector_of ty size NORMALIZE part.now }
{
    if ty == FIRST {
        return components::<FIRST>(part, size, NORMALIZE);
    }
    if ty == SECOND {
        return components::<SECOND>(part, size, NORMALIZE);
    }
    vector(part, ty, size, NORMALIZE)
}

// An array as a draw holds it: what is the same for every index. The element at an address from `low` to `last` has `len` bytes from
// `origin + (address - low)` on, of the store or of the guest bytes. Where no address will do, `low` is above `last` and `failure` says why.
#[derive(Clone, Copy)]
pub struct Prepared {
    pub array: ArrayPointer,
    pub failure: Option<FetchFailure>,
    pub len: u32,
    pub stride: u32,
    pub low: u32,
    pub last: u32,
    pub origin: u32,
}

// The largest address, and the largest product on the way to it.
const LAST_ADDRESS: u64 = 0xffff_ffff;

// The last address of an element of `len` bytes where `room` bytes start at `low`.
fn last_address(low: u32, room: usize, len: usize) -> u32
    requires { len ≤ room }
    ensures { result ≡ min (low + (room - len)) last_address }
{
    let span = room - len;
    let most = u32::MAX - low;
    low + span.min(most as usize) as u32
}

// The distance between elements, by the stride and the element's length. It is 0 for a length past 32 bits: such an array has no element.
fn step_of(stride: u32, len: u64) -> u32
    ensures { (a : ArrayPointer) → stride ≡ a.stride → len ≡ element_bytes a → len ≤ last_address → result ≡ stride_of a }
{
    if stride != 0 {
        return stride;
    }
    if LAST_ADDRESS < len {
        return 0;
    }
    len as u32
}

// An array with no element: `low` above `last`.
fn without_elements(array: ArrayPointer, failure: FetchFailure, stride: u32) -> Prepared
    ensures { result ≡ record { array = array; failure = Some failure; len = 0; stride = stride; low = 1; last = 0; origin = 0 } }
{
    Prepared {
        array,
        failure: Some(failure),
        len: 0,
        stride,
        low: 1,
        last: 0,
        origin: 0,
    }
}

// Finds what is the same for every index, in the order in which a fetch tests it.
fn prepare<'a>(memory: &Memory<'a>, array: ArrayPointer) -> Prepared
    ensures { let m = memory.now in Prepares (contents_of m.buffers.slots m.store.now) m.base m.store.now m.guest.now array result }
{
    let width = u64::from(component_bytes(array.ty));
    let len = width * u64::from(array.size);
    let stride = step_of(array.stride, len);
    if width == 0 {
        return without_elements(array, FetchFailure::UnknownType, stride);
    }
    if LAST_ADDRESS < len {
        return without_elements(array, FetchFailure::Overflow, stride);
    }
    let Some(x) = memory.find_extent(array.buffer) else {
        return without_elements(array, FetchFailure::NoBuffer, stride);
    };
    if x.room < len as usize {
        return without_elements(array, FetchFailure::Unreadable, stride);
    }
    Prepared {
        array,
        failure: None,
        len: len as u32,
        stride,
        low: x.low,
        last: last_address(x.low, x.room, len as usize),
        origin: x.origin as u32,
    }
}

// Why there is no element at an address.
fn missing(failure: Option<FetchFailure>, address: u64) -> FetchFailure
    ensures { result ≡ missing_at failure address }
{
    match failure {
        Some(FetchFailure::UnknownType) => FetchFailure::UnknownType,
        _ if LAST_ADDRESS < address => FetchFailure::Overflow,
        Some(f) => f,
        None => FetchFailure::Unreadable,
    }
}

// Where an element starts in the store or in the guest bytes, or why it is not there: the search and the fetches ask it.
fn find_element(e: Prepared, index: u32) -> Result<usize, FetchFailure>
    ensures { result ≡ location_of e index }
{
    let address = u64::from(e.array.pointer) + u64::from(e.stride) * u64::from(index);
    let low = u64::from(e.low);
    if address < low || u64::from(e.last) < address {
        return Err(missing(e.failure, address));
    }
    Ok((u64::from(e.origin) + (address - low)) as usize)
}

// The `len` bytes from `at` on, a part of the guest bytes with buffer 0, else of the store. Nothing is copied.
fn element<'a>(store: &'a [u8], guest: &'a [u8], buffer: u32, at: usize, len: usize) -> &'a [u8]
    requires { at + len ≤ length (part_source buffer store.now guest.now) }
    ensures { result.now ≡ take len (drop at (part_source buffer store.now guest.now)) }
{
    if buffer == 0 {
        &guest[at..at + len]
    } else {
        &store[at..at + len]
    }
}

// Element `index` of an array whose commonest types are FIRST and SECOND. `s` is for the contract alone: no code reads it.
fn fetch_element<'a, const NORMALIZE: bool, const FIRST: u32, const SECOND: u32>(
    s: DrawInputs,
    e: Prepared,
    store: &'a [u8],
    guest: &'a [u8],
    index: u32,
) -> Fetched
    requires { PreparesFor (scene_in s store.now guest.now) store.now e.array e }
    ensures { result ≡ element_of (scene_in s store.now guest.now) e.array index NORMALIZE }
{
    let at = find_element(e, index)?;
    let array = e.array;
    let part = element(store, guest, array.buffer, at, e.len as usize);
    Ok(components_by::<NORMALIZE, FIRST, SECOND>(part, array.ty, array.size))
}

// The components of a fetch, or others where it fails.
fn components_or(f: Fetched, other: [f32; 4]) -> [f32; 4]
    ensures { result ≡ components_or f other }
{
    match f {
        Ok(v) => [v.x, v.y, v.z, v.w],
        Err(_) => other,
    }
}

// What stands for a position or a pair that cannot be fetched.
const ORIGIN: [f32; 4] = [0.0, 0.0, 0.0, 1.0];

// A position that cannot be fetched counts as 0, 0, 0, 1; a draw with one is refused.
fn position_at<'a>(
    s: DrawInputs,
    e: Prepared,
    store: &'a [u8],
    guest: &'a [u8],
    index: u32,
) -> [f32; 4]
    requires { PreparesFor (scene_in s store.now guest.now) store.now s.arrays.vertex e }
    ensures { result ≡ object_position (scene_in s store.now guest.now) index }
{
    components_or(
        fetch_element::<false, 0x1406, 0x1402>(s, e, store, guest, index),
        ORIGIN,
    )
}

// The colour of an index: the array's where it is enabled and can be fetched, else the current one.
fn color_at<'a>(
    s: DrawInputs,
    e: Prepared,
    store: &'a [u8],
    guest: &'a [u8],
    index: u32,
) -> [f32; 4]
    requires { PreparesFor (scene_in s store.now guest.now) store.now s.arrays.color e }
    ensures { result ≡ color_of (scene_in s store.now guest.now) index }
{
    let current = s.attributes.color;
    if !e.array.enabled {
        return current;
    }
    components_or(
        fetch_element::<true, 0x1401, 0x1406>(s, e, store, guest, index),
        current,
    )
}

// Whether the mask has the unit's stage; `place` is the unit's bit, 1, 2, 4 or 8.
fn has_stage(stages: u32, place: u32) -> bool
    requires { 0 < place }
    ensures { (unit : ℕ) → place ≡ 2 ^ unit → result ≡ has_stage stages unit }
{
    stages / place % 2 == 1
}

// (s, t, 0, 1) by the texture matrix.
fn transform_pair(m: [f32; 16], p: Pair) -> Pair
    ensures { result ≡ transformed_pair m (pair_words p) }
{
    let v = matrix::transform(m, [p.s, p.t, 0.0, 1.0]);
    Pair { s: v[0], t: v[1] }
}

// The first two components of an element; 0, 0 where it cannot be fetched.
fn coordinates<'a>(s: DrawInputs, e: Prepared, store: &'a [u8], guest: &'a [u8], index: u32) -> Pair
    requires { PreparesFor (scene_in s store.now guest.now) store.now e.array e }
    ensures { result ≡ pair_from (components_or (element_of (scene_in s store.now guest.now) e.array index false) origin) }
{
    let v = components_or(
        fetch_element::<false, 0x1406, 0x1406>(s, e, store, guest, index),
        ORIGIN,
    );
    Pair { s: v[0], t: v[1] }
}

// The pair of a unit, whose bit in the mask of stages is `place`.
fn pair_at<'a>(
    s: &DrawInputs,
    e: Prepared,
    store: &'a [u8],
    guest: &'a [u8],
    index: u32,
    unit: usize,
    place: u32,
) -> Pair
    requires { (place ≡ 2 ^ unit) × PreparesFor (scene_in s.now store.now guest.now) store.now (unit_array (scene_in s.now store.now guest.now) unit) e }
    ensures { result ≡ pair_of (scene_in s.now store.now guest.now) index unit }
{
    if !has_stage(s.stages, place) {
        return Pair { s: 0.0, t: 0.0 };
    }
    if !e.array.enabled {
        return s.attributes.unit_pair(unit);
    }
    transform_pair(s.texture, coordinates(*s, e, store, guest, index))
}

// The arrays of a scene, prepared: once a draw.
#[derive(Clone, Copy)]
pub struct Plan {
    pub position: Prepared,
    pub color: Prepared,
    pub units: [Prepared; 4],
}

// A call for each unit: of what its closure holds `map` promises too little (tried, it did not prove).
fn plan_of(s: DrawInputs, store: &[u8], guest: &[u8]) -> Plan
    ensures { Plans (scene_in s store.now guest.now) store.now result }
{
    let arrays = s.arrays;
    let memory = Memory {
        buffers: s.buffers,
        store,
        base: s.base,
        guest,
    };
    let position = prepare(&memory, arrays.vertex);
    let color = prepare(&memory, arrays.color);
    let unit0 = prepare(&memory, arrays.unit_array(0));
    let unit1 = prepare(&memory, arrays.unit_array(1));
    let unit2 = prepare(&memory, arrays.unit_array(2));
    let unit3 = prepare(&memory, arrays.unit_array(3));
    Plan {
        position,
        color,
        units: [unit0, unit1, unit2, unit3],
    }
}

// The four pairs of an index, by unit. A call for each, so that unit and bit are constants there.
fn pairs_at<'a>(s: DrawInputs, p: Plan, store: &'a [u8], guest: &'a [u8], index: u32) -> [f32; 8]
    requires { Plans (scene_in s store.now guest.now) store.now p }
    ensures { result ≡ texcoords_of (scene_in s store.now guest.now) index }
{
    let [e0, e1, e2, e3] = p.units;
    let t0 = pair_at(&s, e0, store, guest, index, 0, 1);
    let t1 = pair_at(&s, e1, store, guest, index, 1, 2);
    let t2 = pair_at(&s, e2, store, guest, index, 2, 4);
    let t3 = pair_at(&s, e3, store, guest, index, 3, 8);
    [t0.s, t0.t, t1.s, t1.t, t2.s, t2.t, t3.s, t3.t]
}

// The vertex of an index. The colour comes first: the compiler makes faster code of that order.
fn assemble<'a>(s: DrawInputs, p: Plan, store: &'a [u8], guest: &'a [u8], index: u32) -> Vertex
    requires { Plans (scene_in s store.now guest.now) store.now p }
    ensures { result ≡ vertex_of (scene_in s store.now guest.now) index }
{
    let color = color_at(s, p.color, store, guest, index);
    let o = position_at(s, p.position, store, guest, index);
    let position = matrix::transform(s.transform, o);
    let eye = matrix::transform(s.modelview, o);
    let texcoords = pairs_at(s, p, store, guest, index);
    Vertex {
        position,
        color,
        texcoords,
        fog: number::abs(eye[2]),
    }
}

// The first of n places whose position cannot be fetched, or n.
fn first_failing<'a>(
    s: DrawInputs,
    store: &'a [u8],
    guest: &'a [u8],
    list: IndexList<'a>,
    n: usize,
) -> usize
    ensures { result ≡ first n (fails (scene_in s store.now guest.now) (index_list list.entry)) }
{
    let memory = Memory {
        buffers: s.buffers,
        store,
        base: s.base,
        guest,
    };
    let e = prepare(&memory, s.arrays.vertex);
    let mut i = 0;
    loop {
        if n <= i {
            break i;
        }
        match find_element(e, list.index(i)) {
            Ok(_at) => i += 1,
            Err(_) => break i,
        }
    }
}

// Whether the vertex array is enabled, with buffer or pointer nonzero.
fn has_vertices(a: ArrayPointer) -> bool
    ensures { result ≡ has_vertices a }
{
    a.enabled && (a.buffer != 0 || a.pointer != 0)
}

// The tests of a draw, in their order. The room in the output is tested after them.
pub fn validate<'a>(
    s: DrawInputs,
    store: &'a [u8],
    guest: &'a [u8],
    mode: u32,
    list: IndexList<'a>,
) -> Result<(), Refusal>
    ensures { number_in result ≡ list_number (scene_in s store.now guest.now) mode (index_list list.entry) }
{
    if !has_vertices(s.arrays.vertex) {
        return Err(Refusal::NoVertices);
    }
    let n = list.len();
    let place = first_failing(s, store, guest, list, n);
    if place < n {
        return Err(Refusal::NoPosition);
    }
    if 6 < mode {
        return Err(Refusal::InvalidEnum);
    }
    if mode < 4 {
        return Err(Refusal::NoTriangles);
    }
    Ok(())
}

// Writes f32 from `at` on.
fn put(out: &mut [f32], at: usize, words: &[f32])
    requires { at + length words.now ≤ length out.old }
    ensures { out.new ≡ sets out.old at words.now }
{
    out[at..at + words.len()].copy_from_slice(words);
}

// Writes the 17 f32 of a vertex.
fn write_vertex(out: &mut [f32], at: usize, v: Vertex)
    requires { at + 17 ≤ length out.old }
    ensures { out.new ≡ sets out.old at (vertex_words v) }
{
    put(out, at, &v.position);
    put(out, at + 4, &v.color);
    put(out, at + 8, &v.texcoords);
    out[at + 16] = v.fog;
}

// The index of a corner.
fn corner_index<'a>(p: Primitive, list: IndexList<'a>, c: usize) -> u32
    requires { c < 0x4000_0000_0000_0000 }
    ensures { result ≡ get_or (index_list list.entry) (corner_place p c) 0 }
{
    list.index(p.corner_place(c))
}

// Writes the first n corners.
fn write_planned<'a>(
    s: DrawInputs,
    plan: Plan,
    store: &'a [u8],
    guest: &'a [u8],
    p: Primitive,
    list: IndexList<'a>,
    n: usize,
    out: &mut [f32],
)
    requires { (17 * n ≤ length out.old) × Plans (scene_in s store.now guest.now) store.now plan }
    ensures { out.new ≡ sets out.old 0
        (corner_words (λ q. vertex_at (scene_in s store.now guest.now) (index_list list.entry) (corner_place p q)) n) }
{
    for c in 0..n {
        let index = corner_index(p, list, c);
        let v = assemble(s, plan, store, guest, index);
        write_vertex(out, 17 * c, v);
    }
}

// Writes the first n corners of the index list's triangles, three to a triangle; nothing where the output has no room for them.
pub fn write_corners<'a>(
    s: DrawInputs,
    store: &'a [u8],
    guest: &'a [u8],
    p: Primitive,
    list: IndexList<'a>,
    n: usize,
    out: &mut [f32],
)
    ensures { (17 * n ≤ length out.old
        → out.new ≡ sets out.old 0 (take (17 * n) (words_of (triangles_to (vertex_at (scene_in s store.now guest.now)
        (index_list list.entry)) p ((n + 2) / 3)))))
        × (length out.old < 17 * n → out.new ≡ out.old) }
{
    if out.len() / 17 < n {
        return;
    }
    let plan = plan_of(s, store, guest);
    write_planned(s, plan, store, guest, p, list, n, out);
}
