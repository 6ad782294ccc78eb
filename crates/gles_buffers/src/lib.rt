// The buffer calls. Each takes the context by value and gives it back with the call's number.
// They test all but the buffers themselves, which the methods of `Buffers` test. A copy of the buffers is lent: lent in place, the compiler would keep
// the whole context in memory.
#![tactic(auto)]

ghost use Rattle.std.specs.Prelude.{◌≡◌};
ghost use Rattle.buffers.specs.Objects.{gen_first};
ghost use Rattle.context.specs.Calls.{Call, ObjectCall, BufferCall};
ghost use Rattle.context.specs.Contract.{Did, Does};

use context::{Context, GenReply, Reply};

// The first of n names, one after the other; 0 where none is made.
pub fn gen_buffers(c: Context, n: usize) -> GenReply
    ensures does { Does (Call.object (ObjectCall.buffer (BufferCall.gen_buffers n))) c result.number result.context }
    ensures first { result.first ≡ gen_first result.number c.buffers.next n }
{
    if !c.is_sound_apart() {
        let Reply { number, context } = c.refuse();
        return GenReply {
            number,
            first: 0,
            context,
        };
    }
    let mut buffers = c.buffers;
    let made = buffers.generate(n);
    let Reply { number, context } = c.put_buffers(refusal::number_of(made), buffers);
    GenReply {
        number,
        first: made.unwrap_or(0),
        context,
    }
}

pub fn bind_buffer(c: Context, target: u32, name: u32) -> Reply
    ensures { Does (Call.object (ObjectCall.buffer (BufferCall.bind_buffer target name))) c result.number result.context }
{
    if !c.is_sound_apart() {
        return c.refuse();
    }
    let mut buffers = c.buffers;
    let done = buffers.bind(target, name);
    c.put_buffers(refusal::number_of(done), buffers)
}

pub fn delete_buffers(c: Context, names: &[u32]) -> Reply
    ensures { Does (Call.object (ObjectCall.buffer (BufferCall.delete_buffers names.now))) c result.number result.context }
{
    if !c.is_sound_apart() {
        return c.refuse();
    }
    let mut buffers = c.buffers;
    let done = buffers.delete(names);
    c.put_buffers(refusal::number_of(done), buffers)
}

pub fn buffer_data(
    c: Context,
    store: &mut [u8],
    target: u32,
    size: usize,
    data: &[u8],
    usage: u32,
) -> Reply
    ensures { Did (Call.object (ObjectCall.buffer (BufferCall.buffer_data target size «data».now usage)))
        c store.old result.number result.context store.new }
{
    if !c.is_sound_apart() {
        return c.refuse();
    }
    let mut buffers = c.buffers;
    let done = buffers.set_data(store, target, size, data);
    c.put_buffers(refusal::number_of(done), buffers)
}

pub fn buffer_sub_data(c: Context, store: &mut [u8], target: u32, offset: u32, data: &[u8]) -> Reply
    ensures { Did (Call.object (ObjectCall.buffer (BufferCall.buffer_sub_data target offset «data».now)))
        c store.old result.number result.context store.new }
{
    if !c.is_sound_apart() {
        return c.refuse();
    }
    let mut buffers = c.buffers;
    let done = buffers.set_sub_data(store, target, offset, data);
    c.put_buffers(refusal::number_of(done), buffers)
}
