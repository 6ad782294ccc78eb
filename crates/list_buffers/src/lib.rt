// The functions that make the buffer calls of records.
#![tactic(auto)]

ghost use Rattle.std.specs.Prelude.{◌≡◌};
ghost use Rattle.context.specs.Calls.{Call, ObjectCall, BufferCall};
ghost use Rattle.context.specs.Contract.{Did, Does};
ghost use Rattle.list_records.specs.Encoding.{data_of, sub_data_of, buffer_of};
ghost use Rattle.list_records.specs.Perform.{buffer_value};

use context::{Context, Reply};
use list_records::{CallReply, Record};

fn make_gen(c: Context, n: usize) -> CallReply
    ensures did { Does (Call.object (ObjectCall.buffer (BufferCall.gen_buffers n))) c result.number result.context }
    ensures value { result.value ≡ buffer_value (BufferCall.gen_buffers n) c result.number }
{
    gles_buffers::gen_buffers(c, n).into()
}

fn make_data(c: Context, store: &mut [u8], w: &[u32], bytes: &[u8]) -> Reply
    ensures { Did (Call.object (ObjectCall.buffer (data_of bytes.now w.now))) c store.old result.number result.context store.new }
{
    let target = list_words::word_at(w, 0);
    let size = list_words::long_at(w, 1);
    let usage = list_words::word_at(w, 3);
    let part = list_words::part_at(bytes, w, 4);
    gles_buffers::buffer_data(c, store, target, size, part, usage)
}

fn make_sub_data(c: Context, store: &mut [u8], w: &[u32], bytes: &[u8]) -> Reply
    ensures { Did (Call.object (ObjectCall.buffer (sub_data_of bytes.now w.now))) c store.old result.number result.context store.new }
{
    let target = list_words::word_at(w, 0);
    let offset = list_words::word_at(w, 1);
    let part = list_words::part_at(bytes, w, 2);
    gles_buffers::buffer_sub_data(c, store, target, offset, part)
}

pub fn make_buffer(c: Context, store: &mut [u8], record: Record<'_>) -> CallReply
    ensures did { Did (Call.object (ObjectCall.buffer (buffer_of record.entry.bytes.now record.entry.code record.entry.words.now)))
        c store.old result.number result.context store.new }
    ensures value { result.value ≡ buffer_value (buffer_of record.entry.bytes.now record.entry.code record.entry.words.now) c result.number }
{
    let w = record.words;
    match record.code {
        0x20 => make_gen(c, list_words::long_at(w, 0)),
        0x21 => gles_buffers::bind_buffer(c, record.word(0), record.word(1)).into(),
        0x22 => gles_buffers::delete_buffers(c, w).into(),
        0x23 => make_data(c, store, w, record.bytes).into(),
        _ => make_sub_data(c, store, w, record.bytes).into(),
    }
}
