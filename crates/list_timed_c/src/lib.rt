// What the benchmark calls, in a static library: it calls the function of its name in crate list_timed and promises the same.
#![tactic(auto)]

ghost use Rattle.list_timed.specs.Repeat.{RunsAgain};

// Makes the calls of `first` on a fresh context, and after them those of `again`, so many times. Gives how many words of `first` were read.
#[unsafe(no_mangle)]
pub extern "C" fn beonasul_repeat(
    first: &[u32],
    again: &[u32],
    times: u32,
    bytes: &[u8],
    store: &mut [u8],
    out: &mut [f32],
) -> usize
    ensures { RunsAgain first.now again.now times bytes.now store.old out.old
        result store.new out.new }
{
    list_timed::beonasul_repeat(first, again, times, bytes, store, out)
}
