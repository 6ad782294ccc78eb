// What the records of a trace say: settings, which records may come in a state, stacks outside the context, calls and draws.
#![tactic(auto)]

ghost use Rattle.std.specs.Prelude.{◌≡◌, length};
ghost use Rattle.refusal.specs.Refusals.{answer};
ghost use Rattle.refusal.specs.RefusalsCode.{answered};
ghost use Rattle.vertex.specs.Index.{range_count};
ghost use Rattle.history.specs.Demand3.{DrawDid};
ghost use Rattle.list_words.specs.Words.{word_at};
ghost use Rattle.list_records.specs.Perform.{Performs};
ghost use Rattle.trace_format.specs.Decoded.{decoded_call};
ghost use Rattle.trace_driver.specs.Settings.{fresh_borrowed, borrowed_after, store_after, guest_after};
ghost use Rattle.trace_driver.specs.Stacks.{matrix_at, stack_of, stack_record};
ghost use Rattle.trace_driver.specs.Permitted.{any_live, is_call, code_borrows_store, is_made, can_be_read, is_short, is_few, suits, is_permitted};
ghost use Rattle.trace_driver.specs.Draws.{room_of, trace_draw};

use buffers::{Buffers, STORE_BYTES};
use context::{Context, DrawReply};
use lent_stack::StackAnswer;
use list_records::{CallReply, Record};
use refusal::Refusal;
use stack::{Matrix, MatrixStack, SAVED_LIMIT};
use trace_format::{MAX_ENTRIES, STORE_AREA};
use vertex::IndexType;
use view::GuestView;

// ---- settings

// What the calls borrow: the guest view's base and number of bytes, and how many bytes of the store.
#[derive(Clone, Copy)]
pub struct Borrowed {
    pub base: u32,
    pub guest: usize,
    pub store: usize,
}

impl Borrowed {
    // No guest bytes, and the store that every call accepts.
    pub fn new() -> Borrowed
        ensures { result ≡ fresh_borrowed }
    {
        Borrowed {
            base: 0,
            guest: 0,
            store: STORE_BYTES,
        }
    }

    // What the calls borrow after a record.
    pub fn after(mut self, record: Record<'_>) -> Borrowed
        ensures { result ≡ borrowed_after record.entry.code (word_at record.entry.words.now 0) (word_at record.entry.words.now 1) self }
    {
        let a = record.word(0);
        let b = record.word(1) as usize;
        match record.code {
            0x05 => {
                self.store = a as usize;
            }
            0x06 => {
                self.base = a;
                self.guest = b;
            }
            0x07 => {
                self.base = a;
                self.guest = b;
            }
            0x08 => {
                self.base = a;
            }
            _ => {}
        }
        self
    }

    // Whether so many indices can be read from guest memory.
    fn can_be_read(self, element: u32, count: u32, ty: u32, pointer: u32) -> bool
        ensures { result ≡ can_be_read self element count ty pointer }
    {
        let Ok(kind) = IndexType::try_from(ty) else {
            return false;
        };
        if element != 0 || pointer < self.base {
            return false;
        }
        (pointer - self.base) as usize + count as usize * kind.width() <= self.guest
    }

    // Stored indices of a draw within the bound; those that cannot be read are not counted.
    fn is_few(self, element: u32, count: u32, ty: u32, pointer: u32) -> bool
        ensures { result ≡ is_few self element count ty pointer }
    {
        !self.can_be_read(element, count, ty, pointer) || count <= MAX_ENTRIES
    }
}

// Fills the areas as a record says.
pub fn fill_areas(record: Record<'_>, store: &mut [u8], guest: &mut [u8])
    ensures store_after { store.new ≡ store_after record.entry.code record.entry.words.now record.entry.bytes.now store.old }
    ensures guest_after { guest.new ≡ guest_after record.entry.code record.entry.words.now record.entry.bytes.now guest.old }
{
    let a = record.word(0);
    let b = record.word(1);
    match record.code {
        0x03 => {
            trace_format::fill(store, STORE_AREA as u32, a);
        }
        0x04 => {
            let bytes = list_words::bytes_at(record.bytes, 8, b as usize);
            trace_text::put(store, a as usize, bytes);
        }
        0x06 => {
            trace_text::put(guest, 0, list_words::bytes_at(record.bytes, 8, b as usize));
        }
        0x07 => {
            trace_format::fill(guest, b, record.word(2));
        }
        _ => {}
    }
}

// ---- stacks outside the context

// The matrix in the words from a place on; a word past their end is 0.
fn matrix_at(w: &[u32], place: usize) -> Matrix
    ensures { result ≡ matrix_at w.now place }
{
    Matrix {
        entries: list_words::matrix_floats(list_words::words_from(w, place)),
    }
}

// The stack of a STACK_SET record.
pub fn stack_of(w: &[u32]) -> MatrixStack
    ensures { result ≡ stack_of w.now }
{
    let current = matrix_at(w, 2);
    let mut saved = [current; SAVED_LIMIT];
    for (k, m) in saved.iter_mut().enumerate() {
        *m = matrix_at(w, 18 + 16 * k);
    }
    MatrixStack {
        current,
        saved,
        depth: list_words::word_at(w, 1) as usize,
    }
}

// What a record on one of those stacks answers: the number of push or pop, and the stack after it.
pub fn answer_stack(s: MatrixStack, record: Record<'_>) -> StackAnswer
    ensures { answer result.number result.stack ≡ stack_record record.entry.code record.entry.words.now s }
{
    match record.code {
        0x70 => StackAnswer {
            number: 0,
            stack: stack_of(record.words),
        },
        0x71 => lent_stack::pushed(s),
        0x72 => lent_stack::popped(s),
        _ => StackAnswer {
            number: 0,
            stack: s,
        },
    }
}

// The same on a stack that the caller lends, with the reason of a refusal.
#[tactic(auto, unfolding(crate::specs::Stacks::stack_record, stack::specs::Stack::stack_answer))]
pub fn stack_answer(s: &mut MatrixStack, record: Record<'_>) -> Result<(), Refusal>
    ensures { answered result s.new ≡ stack_record record.entry.code record.entry.words.now s.old }
{
    let a = answer_stack(*s, record);
    *s = a.stack;
    match a.number {
        0 => Ok(()),
        0x0503 => Err(Refusal::StackOverflow),
        0x0504 => Err(Refusal::StackUnderflow),
        _ => Err(Refusal::Invalid),
    }
}

// ---- what may come in a state

// Whether a buffer lives.
fn any_live(b: &Buffers) -> bool
    ensures { result ≡ any_live b.now.slots }
{
    b.next_live(0).is_some()
}

#[tactic(auto, unfolding(crate::specs::Permitted::is_call))]
fn is_call(code: u32) -> bool
    ensures { result ≡ is_call code }
{
    match code {
        0x71 => true,
        0x72 => true,
        _ => 0x10 <= code && code < 0x70,
    }
}

fn borrows_store(code: u32) -> bool
    ensures { result ≡ code_borrows_store code }
{
    match code {
        0x23 => true,
        0x24 => true,
        0x60 => true,
        0x61 => true,
        0x62 => true,
        _ => false,
    }
}

// Whether a record may come while calls borrow so many bytes of the store.
#[tactic(auto, unfolding(crate::specs::Permitted::is_made))]
fn is_made(store: usize, code: u32) -> bool
    ensures { result ≡ is_made store code }
{
    store == STORE_BYTES || !is_call(code) || borrows_store(code)
}

// How many indices a range has.
fn range_count(first: u32, count: u32) -> u32
    ensures { result ≡ range_count first count }
{
    count.min(u32::MAX - first)
}

// A range of a draw within the bound; without a vertex array none is read.
fn is_short(enabled: bool, first: u32, count: u32) -> bool
    ensures { result ≡ is_short enabled first count }
{
    !enabled || range_count(first, count) <= MAX_ENTRIES
}

// Whether a record suits a state.
fn suits_state(live: bool, enabled: bool, element: u32, v: Borrowed, record: Record<'_>) -> bool
    ensures { result ≡ suits live enabled element v record.entry.code record.entry.words.now }
{
    let a = record.word(3);
    let b = record.word(4);
    match record.code {
        0x03 => !live,
        0x04 => !live,
        0x61 => is_short(enabled, a, b),
        0x62 => v.is_few(element, a, b, record.word(5)),
        0x7e => live,
        _ => true,
    }
}

// Whether a record may come now.
pub fn is_permitted(c: Context, v: Borrowed, record: Record<'_>) -> bool
    ensures { result ≡ is_permitted c v record.entry.code record.entry.words.now }
{
    let live = any_live(&c.buffers);
    let enabled = c.arrays.vertex.enabled;
    let element = c.buffers.element_buffer;
    is_made(v.store, record.code) && suits_state(live, enabled, element, v, record)
}

// ---- calls

// Makes the call of a record that is no draw. Its bytes are those of its words.
pub fn call(c: Context, store: &mut [u8], record: Record<'_>, out: &mut [f32]) -> Option<CallReply>
    ensures { Performs c store.old out.old result store.new out.new
        (decoded_call record.entry.bytes.now (length out.old) record.entry.code record.entry.words.now) }
{
    let made = trace_format::made_words(record.code, record.words);
    let call = Record {
        code: trace_format::call_code(record.code),
        words: trace_format::call_words(record.code, record.words, &made),
        bytes: record.bytes,
    };
    list_runner::make_call(c, store, call, out)
}

// ---- draws

// How many f32 of an output of some length a draw has.
pub fn room_of(record: Record<'_>, len: usize) -> usize
    ensures { result ≡ room_of record.entry.words.now len }
{
    len.min(record.word(2) as usize)
}

// Makes the draw of a record. The output is as long as its words say.
pub fn draw<'a>(
    c: Context,
    record: Record<'_>,
    store: &'a [u8],
    view: GuestView<'a>,
    out: &mut [f32],
) -> DrawReply
    ensures { DrawDid (trace_draw record.entry.code record.entry.words.now view.entry.base view.entry.bytes.now (length out.old))
        c store.now result out.old out.new }
{
    let mode = record.word(0);
    let stages = record.word(1);
    let a = record.word(3);
    let b = record.word(4);
    match record.code {
        0x60 => {
            let indices = list_words::words_from(record.words, 4);
            view::draw_elements(c, store, view, mode, indices, stages, out)
        }
        0x61 => view::draw_arrays(c, store, view, mode, a, b, stages, out),
        _ => {
            let pointer = record.word(5);
            view::draw_elements_from_guest(c, store, view, mode, a, b, pointer, stages, out)
        }
    }
}

#[cfg(test)]
mod tests {
    use super::*;

    // A record of one of those stacks. Only STACK_SET reads its words.
    fn stack_record(code: u32, words: &[u32]) -> Record<'_> {
        Record {
            code,
            words,
            bytes: &[],
        }
    }

    #[test]
    fn lent_stack_is_answered(rt: HostRuntime) {
        let mut s = MatrixStack::new();
        let (set, push, pop, show) = (0x70, 0x71, 0x72, 0x73);
        for (code, words, answer, depth) in [
            (pop, [0, 0], Err(Refusal::StackUnderflow), 0),
            (push, [0, 0], Ok(()), 1),
            (show, [0, 0], Ok(()), 1),
            (pop, [0, 0], Ok(()), 0),
            (set, [0, 14], Ok(()), 14),
            (push, [0, 0], Ok(()), 15),
            (push, [0, 0], Err(Refusal::StackOverflow), 15),
            (set, [0, 16], Ok(()), 16),
            (push, [0, 0], Err(Refusal::Invalid), 16),
            (pop, [0, 0], Err(Refusal::Invalid), 16),
        ] {
            let answered = stack_answer(&mut s, stack_record(code, &words));
            assert_eq!(rt; answered, answer, "record {code:#x}");
            assert_eq!(rt; s.depth, depth, "after record {code:#x}");
        }
    }
}
