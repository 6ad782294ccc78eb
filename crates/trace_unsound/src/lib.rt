// Contexts that a record of a trace makes unsound, to see that every call refuses them.
#![tactic(auto)]

ghost use Rattle.std.specs.Prelude.{◌≡◌};
ghost use Rattle.buffers.specs.Objects.{slot_count};
ghost use Rattle.trace_unsound.specs.Kinds.{Greatest, slot_replaced, other_than, BuffersMade, ContextMade};

use buffers::{Buffers, SLOT_COUNT, Slot};
use context::Context;

// One more than a stack saves.
const TOO_DEEP: usize = 16;

// One more byte than a buffer has.
const TOO_LONG: u32 = 4097;

// The first number that is no unit's.
const NO_UNIT: u32 = 4;

// What slot k holds is replaced, where there is a slot k.
#[tactic(auto, unfolding(crate::specs::Kinds::slot_replaced))]
fn put_slot(b: &mut Buffers, k: usize, slot: Slot)
    ensures { b.new ≡ slot_replaced k slot b.old }
{
    if k < SLOT_COUNT {
        b.slots[k] = slot;
    }
}

// A slot other than k.
fn other_than(k: usize) -> usize
    ensures { result ≡ other_than k }
{
    usize::from(k == 0)
}

// The greatest live name, 0 where none lives.
fn last_name(b: &Buffers) -> u32
    ensures { Greatest b.now.slots slot_count result }
{
    b.slots.iter().map(|slot| slot.name).max().unwrap_or(0)
}

fn unsound_buffers(mut b: Buffers, kind: u32) -> Buffers
    ensures { BuffersMade b kind result }
{
    let k = b.next_live(0).unwrap_or(SLOT_COUNT);
    let name = b.slot_name(k);
    let last = last_name(&b);
    match kind {
        6 => put_slot(
            &mut b,
            k,
            Slot {
                name,
                len: TOO_LONG,
            },
        ),
        7 => put_slot(&mut b, other_than(k), Slot { name, len: 0 }),
        9 => b.next = 0,
        10 => b.next = last,
        11 => b.array_buffer = b.next,
        _ => b.element_buffer = b.next,
    }
    b
}

// The context made unsound in a way: kinds 1 to 3 a stack, 4 and 5 a unit, the others the buffers. Kind 8, a live name 0, cannot be: the
// element binding stands in for it, so that what follows is refused all the same.
pub fn unsound(mut c: Context, kind: u32) -> Context
    ensures { ContextMade c kind result }
{
    let b = unsound_buffers(c.buffers, kind);
    match kind {
        1 => c.stacks.modelview.depth = TOO_DEEP,
        2 => c.stacks.projection.depth = TOO_DEEP,
        3 => c.stacks.texture.depth = TOO_DEEP,
        4 => c.pipeline.active_texture = NO_UNIT,
        5 => c.arrays.client_active_texture = NO_UNIT,
        _ => c.buffers = b,
    }
    c
}
