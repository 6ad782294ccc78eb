// What a record of a trace does to what the program holds: the context, the areas and the stacks outside the context. Its answers are written.
#![tactic(auto)]

ghost use Rattle.std.specs.Prelude.{◌≡◌};
ghost use Rattle.list_words.specs.Words.{word_at};
ghost use Rattle.trace_driver.specs.Stacks.{is_stack_record, stack_record, outer_stacks_after};
ghost use Rattle.trace_session.specs.Records.{CallDone, DrawDone, Inspected, Done};

use context::Context;
use list_records::Record;
use stack::MatrixStack;
use trace_driver::Borrowed;
use view::GuestView;

// ---- calls

// Makes the call of a record that is no draw. Words that are no call's change nothing.
fn make_call(c: Context, store: &mut [u8], record: Record<'_>, out: &mut [f32]) -> Context
    ensures { CallDone c record.entry.code record.entry.words.now record.entry.bytes.now store.old out.old result store.new out.new }
{
    match trace_driver::call(c, store, record, out) {
        Some(r) => {
            trace_answers::say_reply(record.code, r.number, r.value);
            r.context
        }
        None => {
            trace_answers::say_reply(record.code, 0, 0);
            c
        }
    }
}

// ---- draws

fn make_draw<'a>(
    c: Context,
    record: Record<'_>,
    store: &'a [u8],
    view: GuestView<'a>,
    out: &mut [f32],
) -> Context
    ensures { DrawDone c record.entry.code record.entry.words.now store.now view.entry.base view.entry.bytes.now out.old result out.new }
{
    trace_format::mark(out);
    let r = trace_driver::draw(c, record, store, view, out);
    trace_answers::say_call(record.code, &[u64::from(r.number), r.count as u64]);
    trace_answers::say_triangles(out, r.count);
    trace_answers::say_touched(out, r.count);
    r.context
}

// ---- stacks outside the context

fn say_stack_answer(code: u32, number: u32, s: MatrixStack) {
    match code {
        0x71 => trace_answers::say_numbers(b"STACK_PUSH", &[u64::from(number)]),
        0x72 => trace_answers::say_numbers(b"STACK_POP", &[u64::from(number)]),
        0x73 => trace_answers::say_stack(s),
        _ => {}
    }
}

fn use_stack(s: &mut MatrixStack, record: Record<'_>)
    ensures { s.new ≡ (stack_record record.entry.code record.entry.words.now s.old).after }
{
    let r = trace_driver::answer_stack(*s, record);
    say_stack_answer(record.code, r.number, r.stack);
    *s = r.stack;
}

fn is_stack(code: u32) -> bool
    ensures { result ≡ is_stack_record code }
{
    0x70 <= code && code < 0x74
}

// Does to the stacks outside the context what a record says.
pub fn use_stacks(stacks: &mut [MatrixStack; 4], record: Record<'_>)
    ensures { stacks.new ≡ outer_stacks_after record.entry.code record.entry.words.now stacks.old }
{
    let slot = record.word(0) as usize;
    if is_stack(record.code) && slot < 4 {
        // An element that is lent in place: tried, the proof did not close.
        let mut s = stacks[slot];
        use_stack(&mut s, record);
        stacks[slot] = s;
    }
}

// ---- records

// Does what a record says, but for what is borrowed and the stacks outside the context.
pub fn perform(
    c: Context,
    v: Borrowed,
    record: Record<'_>,
    store: &mut [u8],
    guest: &mut [u8],
    out: &mut [f32],
) -> Context
    ensures { Done c v record.entry.code record.entry.words.now record.entry.bytes.now store.old guest.old out.old
        result store.new guest.new out.new }
{
    match record.code {
        0x10..=0x5f => {
            let end = v.store.min(store.len());
            make_call(c, &mut store[..end], record, out)
        }
        0x60..=0x6f => {
            let end = trace_driver::room_of(record, out.len());
            let view = GuestView {
                base: v.base,
                bytes: list_words::bytes_at(guest, 0, v.guest),
            };
            make_draw(
                c,
                record,
                list_words::bytes_at(store, 0, v.store),
                view,
                &mut out[..end],
            )
        }
        _ => {
            trace_driver::fill_areas(record, store, guest);
            inspect(c, record, store)
        }
    }
}

// The answer to an unsound context: 0, or 1 where the kind cannot be. No slot holds a live name 0.
fn say_unsound(kind: u32) {
    let number = if kind == 8 { 1 } else { 0 };
    trace_answers::say_numbers(b"UNSOUND", &[number]);
}

// The records on the context that are no calls: FRESH, UNSOUND, DUMP.
fn inspect(c: Context, record: Record<'_>, store: &[u8]) -> Context
    ensures { Inspected c record.entry.code (word_at record.entry.words.now 0) result }
{
    let a = record.word(0);
    match record.code {
        0x02 => {
            trace_answers::say_numbers(b"FRESH", &[0]);
            Context::new()
        }
        0x7e => {
            say_unsound(a);
            trace_unsound::unsound(c, a)
        }
        0x7f => {
            trace_dump::say_state(c, store, a);
            c
        }
        _ => c,
    }
}
