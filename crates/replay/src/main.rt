// Replays a trace: reads records from standard input, makes their calls and writes the answers to standard output.
#![tactic(auto)]

ghost use Rattle.std.specs.Prelude.{◌≡◌, IfSome, take};
ghost use Rattle.replay.specs.Replayed.{Comes, Replays};

use context::Context;
use list_records::Record;
use stack::MatrixStack;
use trace_driver::Borrowed;
use trace_format::{GUEST_AREA, MAX_OUTPUT, MAX_WORDS, STORE_AREA};
use trace_reader::Header;

// The record of a header, its words the first of the area's.
fn record_of<'a>(h: Header, body: &'a [u8], w: &'a [u32]) -> Record<'a>
    ensures code { result.code ≡ h.code }
    ensures words { result.words.now ≡ take h.n w.now }
    ensures bytes { result.bytes.now ≡ body.now }
{
    Record {
        code: h.code,
        words: list_words::first_words(w, h.n),
        bytes: body,
    }
}

// Reads the next record. None where the answers end: there is none, or it may not come now.
fn next_record(
    c: Context,
    v: Borrowed,
    record: u64,
    body: &mut [u8],
    w: &mut [u32],
) -> Option<Header>
    ensures { IfSome result (λ h. Comes c v h body.new w.old w.new) }
{
    let h = trace_reader::read_record(record, body, w)?;
    if !trace_driver::is_permitted(c, v, record_of(h, body, w)) {
        trace_answers::say_error(record, b"not in this state");
        return None;
    }
    Some(h)
}

// Does what the records say, one after the other.
fn run(store: &mut [u8], guest: &mut [u8], out: &mut [f32], body: &mut [u8], w: &mut [u32])
    ensures { Replays store.old guest.old out.old store.new guest.new out.new }
{
    let mut c = Context::new();
    let mut v = Borrowed::new();
    let mut stacks = [MatrixStack::new(); 4];
    for number in 0..u64::MAX {
        let Some(h) = next_record(c, v, number, &mut body[..], &mut w[..]) else {
            break;
        };
        let record = record_of(h, &body[..], &w[..]);
        c = trace_session::perform(c, v, record, &mut store[..], &mut guest[..], &mut out[..]);
        v = v.after(record);
        trace_session::use_stacks(&mut stacks, record);
    }
}

// Runs on arrays. An array's own length needs no proof where it is borrowed as an array.
fn run_on(
    store: &mut [u8; STORE_AREA],
    guest: &mut [u8; GUEST_AREA],
    out: &mut [f32; MAX_OUTPUT],
    body: &mut [u8; 4 * MAX_WORDS],
    w: &mut [u32; MAX_WORDS],
) {
    run(
        &mut store[..],
        &mut guest[..],
        &mut out[..],
        &mut body[..],
        &mut w[..],
    );
}

fn main() {
    let mut store = [0u8; STORE_AREA];
    let mut guest = [0u8; GUEST_AREA];
    let mut out = [0.0f32; MAX_OUTPUT];
    let mut body = [0u8; 4 * MAX_WORDS];
    let mut w = [0u32; MAX_WORDS];
    run_on(&mut store, &mut guest, &mut out, &mut body, &mut w);
}
