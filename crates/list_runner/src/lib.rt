// The function that makes the call of a record, and the one that makes the calls of a list, one after the other (specs/Lists.antt).
#![tactic(auto)]

ghost use Rattle.std.specs.Prelude.{◌≡◌, ◌≤◌, length, MatchOption};
ghost use Rattle.list_records.specs.Encoding.{call_of, record_call};
ghost use Rattle.list_records.specs.Perform.{Performed, Performs};
ghost use Rattle.list_runner.specs.Lists.{record_length, next_size};
ghost use Rattle.list_runner.specs.Run.{MakesList, Runs};

use buffers::STORE_BYTES;
use context::Context;
use list_records::{CallReply, Record};
use refusal::Refusal;

fn perform(c: Context, store: &mut [u8], record: Record<'_>, out: &mut [f32]) -> CallReply
    ensures { Performed c store.old out.old result.number result.value result.context store.new out.new
        (call_of record.entry.bytes.now (length out.old) record.entry.code record.entry.words.now) }
{
    match record.code {
        0x10 => gles_matrix::set_matrix_mode(c, record.word(0)).into(),
        0..=0x1f => list_records::make_matrix(
            c,
            record.code,
            list_words::matrix_floats(record.words),
        ).into(),
        0x20..=0x2f => list_buffers::make_buffer(c, store, record),
        0x30..=0x35 => list_records::array_record(c, record).into(),
        0x36..=0x3f => list_records::attribute_record(c, record).into(),
        0x40..=0x4f => list_records::pipeline_record(c, record).into(),
        0x50 => list_records::make_take_error(c),
        _ => list_draws::make_draw(c, store, record, out).into(),
    }
}

// Makes the call of a code and its words, none where they are no record's. A call that borrows bytes has them from the record's, a draw its
// output from the start of `out`.
pub fn make_call(
    c: Context,
    store: &mut [u8],
    record: Record<'_>,
    out: &mut [f32],
) -> Option<CallReply>
    ensures { Performs c store.old out.old result store.new out.new
        (record_call record.entry.bytes.now (length out.old) record.entry.code record.entry.words.now) }
{
    if list_records::is_record(record.code, record.words.len()) {
        Some(perform(c, store, record, out))
    } else {
        None
    }
}

// After a list: how many words were read and how many calls were made, number and value of the last call, and the context. The list was read
// whole where `read` is its length. Number and value are 0 where no call was made, and no Option: the station's host reads them as they are.
#[derive(Clone, Copy)]
pub struct ListReply {
    pub read: usize,
    pub made: usize,
    pub number: u32,
    pub value: usize,
    pub context: Context,
}

// How many words the record at the start of a list has, its code and their number included; none where it is not all there.
fn record_length(words: &[u32]) -> Option<usize>
    ensures { MatchOption result (record_length words.now ≡ 0) (λ n. (n ≡ record_length words.now) × (2 ≤ n)) }
{
    let size = 2 + list_words::word_at(words, 1) as usize;
    if size <= words.len() {
        Some(size)
    } else {
        None
    }
}

// The same of a record that has a call.
#[tactic(auto, unfolding(crate::specs::Lists::next_size))]
fn next_size(words: &[u32]) -> Option<usize>
    ensures { MatchOption result (next_size words.now ≡ 0) (λ n. (n ≡ next_size words.now) × (2 ≤ n)) }
{
    let size = record_length(words)?;
    if list_records::is_record(list_words::word_at(words, 0), size - 2) {
        Some(size)
    } else {
        None
    }
}

// Makes the calls of a list, one after the other. The loop puts back the part that a call changes, and the error slot: the rest of the context is
// not copied, so each arm keeps its reply by itself. After a mode call the whole context comes back: a choice is no part that can be put back by itself.
pub fn run_on(
    c: Context,
    words: &[u32],
    bytes: &[u8],
    store: &mut [u8],
    out: &mut [f32],
) -> ListReply
    ensures { MakesList c words.now bytes.now store.old out.old result store.new out.new }
{
    let mut c = c;
    let mut read: usize = 0;
    let mut made: usize = 0;
    let mut number: u32 = 0;
    let mut value: usize = 0;
    while let Some(size) = next_size(&words[read..]) {
        let record = Record {
            code: words[read],
            words: &words[read + 2..read + size],
            bytes,
        };
        match record.code {
            0x14 => {
                let r = gles_matrix::push_matrix(c);
                c.stacks = r.context.stacks;
                c.error = r.context.error;
                number = r.number;
                value = 0;
            }
            0x15 => {
                let r = gles_matrix::pop_matrix(c);
                c.stacks = r.context.stacks;
                c.error = r.context.error;
                number = r.number;
                value = 0;
            }
            0x10 => {
                let r = gles_matrix::set_matrix_mode(c, record.word(0));
                c = r.context;
                number = r.number;
                value = 0;
            }
            0..=0x1f => {
                let r = list_records::make_update(
                    c,
                    record.code,
                    list_words::matrix_floats(record.words),
                );
                let m = r.context.currents();
                c.stacks.set_currents(m);
                c.error = r.context.error;
                number = r.number;
                value = 0;
            }
            0x20..=0x2f => {
                let r = list_buffers::make_buffer(c, &mut store[..], record);
                c.buffers = r.context.buffers;
                c.error = r.context.error;
                number = r.number;
                value = r.value;
            }
            0x30..=0x35 => {
                let r = list_records::array_record(c, record);
                c.arrays = r.context.arrays;
                c.error = r.context.error;
                number = r.number;
                value = 0;
            }
            0x36..=0x3f => {
                let r = list_records::attribute_record(c, record);
                c.attributes = r.context.attributes;
                c.error = r.context.error;
                number = r.number;
                value = 0;
            }
            0x40..=0x4f => {
                let r = list_records::pipeline_record(c, record);
                c.pipeline = r.context.pipeline;
                c.error = r.context.error;
                number = r.number;
                value = 0;
            }
            0x50 => {
                let r = list_records::make_take_error(c);
                c.error = r.context.error;
                number = r.number;
                value = r.value;
            }
            _ => {
                let r = list_draws::make_draw(c, &store[..], record, &mut out[..]);
                c.error = r.context.error;
                number = r.number;
                value = r.count;
            }
        }
        read += size;
        made += 1;
    }
    ListReply {
        read,
        made,
        number,
        value,
        context: c,
    }
}

// Makes the calls of a list on a fresh context; a store of another length is refused.
pub fn run(
    words: &[u32],
    bytes: &[u8],
    store: &mut [u8],
    out: &mut [f32],
) -> Result<ListReply, Refusal>
    ensures { Runs words.now bytes.now store.old out.old result store.new out.new }
{
    if store.len() != STORE_BYTES {
        return Err(Refusal::Invalid);
    }
    Ok(run_on(Context::new(), words, bytes, store, out))
}
