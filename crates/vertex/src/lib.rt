// What a draw reads: its scene, its indices, the tests on both.
#![tactic(auto)]

ghost use Rattle.std.specs.Prelude.{◌≡◌, Err, IfOk, ◌+◌, ◌-◌, ◌/◌, min, length, get_or};
ghost use Rattle.refusal.specs.EnumerantsCode.{Decodes};
ghost use Rattle.refusal.specs.Refusals.{number_in, refusal_number};
ghost use Rattle.vertex.specs.Index.{numbers, index_types, type_width, indices_from};
ghost use Rattle.vertex.specs.Scene.{elements};
ghost use Rattle.vertex.specs.SceneCode.{scene_in, index_list};
ghost use Rattle.vertex.specs.Questions.{elements_number, view_number, part_number};

use arrays::{Arrays, Attributes};
use buffers::Buffers;
use fetch::{Memory, Missing};
use refusal::{Refusal, UnknownEnum};

// The indices of a draw: a borrowed list; from a number up to another, the end left out; borrowed bytes; little-endian shorts of borrowed bytes.
#[derive(Clone, Copy)]
pub enum IndexList<'a> {
    List(&'a [u32]),
    Range(u32, u32),
    Bytes(&'a [u8]),
    Shorts(&'a [u8]),
}

// The type of stored indices.
#[derive(Clone, Copy, Debug, PartialEq, Eq)]
pub enum IndexType {
    Byte,
    Short,
}

impl TryFrom<u32> for IndexType {
    type Error = UnknownEnum;

    ghost try_from_gives = { λ code r. Decodes index_types code r };

    fn try_from(code: u32) -> Result<Self, UnknownEnum> {
        match code {
            0x1401 => Ok(IndexType::Byte),
            0x1403 => Ok(IndexType::Short),
            _ => Err(UnknownEnum),
        }
    }
}

impl IndexType {
    // Bytes of an index.
    pub fn width(self) -> usize
        ensures { result ≡ type_width self }
    {
        match self {
            IndexType::Byte => 1,
            IndexType::Short => 2,
        }
    }

    // The indices of this type that bytes hold.
    pub fn list<'a>(self, bytes: &'a [u8]) -> IndexList<'a>
        ensures { index_list result ≡ numbers (type_width self) (length bytes.now / type_width self) bytes.now }
    {
        match self {
            IndexType::Byte => IndexList::Bytes(bytes),
            IndexType::Short => IndexList::Shorts(bytes),
        }
    }
}

impl<'a> IndexList<'a> {
    // The index at a place; 0 past the end.
    #[tactic(auto, using(crate::proofs::IndexLists::up_from_at, crate::proofs::IndexLists::numbers_one, crate::proofs::IndexLists::shorts_at))]
    pub fn index(self, i: usize) -> u32
        ensures { result ≡ get_or (index_list self.entry) i 0 }
    {
        match self {
            IndexList::List(list) => list.get(i).copied().unwrap_or(0),
            IndexList::Range(first, end) => {
                if i < range_len(first, end) {
                    first + i as u32
                } else {
                    0
                }
            }
            IndexList::Bytes(bytes) => u32::from(bytes.get(i).copied().unwrap_or(0)),
            IndexList::Shorts(bytes) => {
                if i < bytes.len() / 2 {
                    u32::from(number::le16(bytes[2 * i], bytes[2 * i + 1]))
                } else {
                    0
                }
            }
        }
    }

    // How many indices there are.
    #[tactic(auto, using(crate::proofs::IndexLists::length_up_from, crate::proofs::IndexLists::length_numbers))]
    pub fn len(self) -> usize
        ensures { result ≡ length (index_list self.entry) }
    {
        match self {
            IndexList::List(list) => list.len(),
            IndexList::Range(first, end) => range_len(first, end),
            IndexList::Bytes(bytes) => bytes.len(),
            IndexList::Shorts(bytes) => bytes.len() / 2,
        }
    }
}

fn range_len(first: u32, end: u32) -> usize
    ensures { result ≡ end - first }
{
    end.saturating_sub(first) as usize
}

// Where a range of indices ends.
pub fn range_end(first: u32, count: u32) -> u32
    ensures { result ≡ min (first + count) 4294967295 }
{
    first.saturating_add(count)
}

// What a vertex is made from, besides its index and the bytes of store and guest.
// It holds no `fetch::Memory`, so that a context can make it before it sees the bytes.
#[derive(Clone, Copy)]
pub struct DrawInputs {
    pub transform: [f32; 16],
    pub modelview: [f32; 16],
    pub texture: [f32; 16],
    pub buffers: Buffers,
    pub arrays: Arrays,
    pub attributes: Attributes,
    pub base: u32,
    pub stages: u32,
}

// 17 f32: position, colour, four pairs of texture coordinates by unit, fog depth.
#[derive(Clone, Copy)]
pub struct Vertex {
    pub position: [f32; 4],
    pub color: [f32; 4],
    pub texcoords: [f32; 8],
    pub fog: f32,
}

// The first test on the guest view and the mask that fails.
#[tactic(auto, unfolding(crate::specs::Questions::view_number))]
pub fn check_view(base: u32, len: usize, stages: u32) -> Result<(), Refusal>
    ensures { number_in result ≡ view_number base len stages 0 }
{
    if 0x1_0000_0000 < len || 0x1_0000_0000 - len < base as usize {
        return Err(Refusal::GuestTooLong);
    }
    if 16 <= stages {
        return Err(Refusal::UnknownStage);
    }
    Ok(())
}

// Why a draw of stored indices is refused where their bytes are missing.
fn part_refusal(missing: Missing, element: u32) -> Refusal
    ensures { refusal_number result ≡ part_number element (Err missing) }
{
    match missing {
        Missing::Unreadable if element == 0 => Refusal::UnreadableIndices,
        _ => Refusal::InvalidValue,
    }
}

// The indices of a draw that lie in the element buffer, or in guest memory where none is bound.
pub fn stored_indices<'a>(
    s: DrawInputs,
    store: &'a [u8],
    guest: &'a [u8],
    element: u32,
    count: u32,
    ty: u32,
    pointer: u32,
) -> Result<IndexList<'a>, Refusal>
    ensures number { number_in result ≡ elements_number (scene_in s store.now guest.now) element count ty pointer }
    ensures indices { IfOk result (λ list. index_list list ≡ indices_from (scene_in s store.now guest.now) element (elements count ty pointer)) }
{
    let kind = IndexType::try_from(ty)?;
    let len = (count as usize) * kind.width();
    let memory = Memory {
        buffers: s.buffers,
        store,
        base: s.base,
        guest,
    };
    match memory.part(element, pointer, len) {
        Ok(bytes) => Ok(kind.list(bytes)),
        Err(missing) => Err(part_refusal(missing, element)),
    }
}
