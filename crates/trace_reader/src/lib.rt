// Reads the records of a trace from standard input. Where one does not keep the format the answers end with the error line.
#![tactic(auto)]

ghost use Rattle.std.specs.Prelude.{◌≡◌, ◌≤◌, length, IfOk, IfSome};
ghost use Rattle.trace_reader.specs.Kept.{opening_of, ReadFrom};
ghost use Rattle.trace_reader.specs.declared.Stop.{Stop};

use trace_format::{Fault, MAX_WORDS};

const STDIN: i32 = 0;

// A record that was read: its opcode, and how many words it has.
#[derive(Clone, Copy)]
pub struct Header {
    pub code: u32,
    pub n: usize,
}

// Why the answers end at a record: the file ends inside it, or it does not keep the format.
#[derive(Clone, Copy)]
enum Stop {
    Cut,
    Fault(Fault),
}

impl From<Fault> for Stop {
    ghost from_gives = { λ fault stop. stop ≡ Stop.Fault fault };

    fn from(fault: Fault) -> Stop {
        Stop::Fault(fault)
    }
}

impl Stop {
    // What the error line says.
    fn reason(self) -> &'static [u8] {
        match self {
            Stop::Cut => b"the file ends inside the record",
            Stop::Fault(Fault::Shape) => b"unknown opcode, or wrong number of words",
            Stop::Fault(Fault::Bound) => b"a bound is passed",
            Stop::Fault(Fault::Padding) => b"nonzero padding",
        }
    }
}

// The two words before a record's own: its opcode, and how many words it has.
#[derive(Clone, Copy)]
struct Opening {
    code: u32,
    n: u32,
}

fn opening_of(bytes: [u8; 8]) -> Opening
    ensures { result ≡ opening_of bytes }
{
    let mut w = [0u32; 2];
    trace_format::read_words(&bytes, &mut w);
    Opening {
        code: w[0],
        n: w[1],
    }
}

// Reads as many bytes.
fn read_body(body: &mut [u8], size: usize) -> Result<(), Stop>
    ensures { IfOk result (λ _. size ≤ length body.new) }
{
    if body.len() < size || io::read_full(STDIN, &mut body[..size]) < size {
        return Err(Stop::Cut);
    }
    Ok(())
}

// Reads the next record: its bytes, and its words. None where the file ends before it.
fn read_next(body: &mut [u8], w: &mut [u32]) -> Result<Option<Header>, Stop>
    ensures { IfOk result (λ h. IfSome h (λ r. ReadFrom r body.new w.old w.new)) }
{
    let mut head = [0u8; 8];
    let got = io::read_full(STDIN, &mut head);
    if got == 0 {
        return Ok(None);
    }
    if got < 8 {
        return Err(Stop::Cut);
    }
    let opening = opening_of(head);
    let n = opening.n as usize;
    if MAX_WORDS < n {
        return Err(Stop::Fault(Fault::Bound));
    }
    read_body(body, 4 * n)?;
    trace_format::read_words(list_words::bytes_at(body, 0, 4 * n), w);
    trace_format::fault_of(opening.code, list_words::first_words(w, n))?;
    Ok(Some(Header {
        code: opening.code,
        n,
    }))
}

// Reads the next record. It keeps the format, and its words are those of its bytes. None where the answers end.
pub fn read_record(record: u64, body: &mut [u8], w: &mut [u32]) -> Option<Header>
    ensures { IfSome result (λ r. ReadFrom r body.new w.old w.new) }
{
    match read_next(body, w) {
        Ok(next) => next,
        Err(stop) => {
            trace_answers::say_error(record, stop.reason());
            None
        }
    }
}
