// The functions that C and Rust call, in a static library: each calls the function of its name in crate station and promises the same.
#![tactic(auto)]

ghost use Rattle.std.specs.Prelude.{◌≡◌};
ghost use Rattle.station.specs.Boundary.{layout, FreshKept, Ran};

use station::{Kept, Layout, StationReply};

#[unsafe(no_mangle)]
pub extern "C" fn beonasul_layout() -> Layout
    ensures { result ≡ layout }
{
    station::beonasul_layout()
}

// A fresh context.
#[unsafe(no_mangle)]
pub extern "C" fn beonasul_fresh() -> Kept
    ensures { FreshKept result }
{
    station::beonasul_fresh()
}

// The calls of a list on the kept context.
#[unsafe(no_mangle)]
pub extern "C" fn beonasul_run(
    kept: &mut Kept,
    store: &mut [u8],
    words: &[u32],
    bytes: &[u8],
    out: &mut [f32],
) -> StationReply
    ensures { Ran kept.old store.old words.now bytes.now out.old result kept.new store.new
        out.new }
{
    station::beonasul_run(kept, store, words, bytes, out)
}
