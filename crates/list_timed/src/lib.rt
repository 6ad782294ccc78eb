// The library as the benchmark calls it: lists of calls, numbers and slices only.
#![tactic(auto)]

ghost use Rattle.std.specs.Prelude.{List};
ghost use Rattle.context.specs.Calls.{Call};
ghost use Rattle.history.specs.Demand3.{History};
ghost use Rattle.list_timed.specs.Repeat.{Repeats, RunsAgain};

use context::Context;

// Makes the calls of a list so many times.
fn repeat(
    c: Context,
    words: &[u32],
    times: u32,
    bytes: &[u8],
    store: &mut [u8],
    out: &mut [f32],
) -> Context
    ensures { (before : List Call) → History before c store.old
        → Repeats before times words.now bytes.now out.old result store.new out.new }
{
    let mut c = c;
    for _ in 0..times {
        c = list_runner::run_on(c, words, bytes, store, out).context;
    }
    c
}

// Makes the calls of `first` on a fresh context, and after them those of `again`, so many times. Gives how many words of `first` were read.
#[unsafe(no_mangle)]
pub extern "C" fn beonasul_repeat(
    first: &[u32],
    again: &[u32],
    times: u32,
    bytes: &[u8],
    store: &mut [u8],
    out: &mut [f32],
) -> usize
    ensures { RunsAgain first.now again.now times bytes.now store.old out.old
        result store.new out.new }
{
    match list_runner::run(first, bytes, store, out) {
        Err(_) => 0,
        Ok(r) => {
            repeat(r.context, again, times, bytes, store, out);
            r.read
        }
    }
}
