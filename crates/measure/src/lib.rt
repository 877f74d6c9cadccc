// Inner functions for the bench alone: each asks for what its inner function asks for, so it is not for other callers.
#![tactic(auto)]

ghost use Rattle.std.specs.Prelude.{◌<◌, ◌≤◌, ◌≡◌};
ghost use Rattle.entries.specs.View.{Fitting, entry_in};
ghost use Rattle.model.specs.History.{last};
ghost use Rattle.model.specs.Machine.{status_of};
ghost use Rattle.model.specs.Store.{block_used, store_history};
ghost use Rattle.search.specs.Find.{Accepted};
ghost use Rattle.measure.specs.Seen.{viewed};

// The block that sheet i of revision r uses.
#[unsafe(no_mangle)]
pub extern "C" fn measure_look_up(store: &[u8], n: usize, used: usize, r: usize, i: usize) -> usize
    requires { Accepted store.now n used × (r ≤ last (store_history store.now)) × (i < 32) }
    ensures { result ≡ block_used store.now r i }
{
    search::look_up(store, n, used, r, i).block
}

// The status of entry i.
#[unsafe(no_mangle)]
pub extern "C" fn measure_status<'a>(
    store: &'a [u8],
    copy: &'a [u8],
    n: usize,
    used: usize,
    last: usize,
    seat: u32,
    i: usize,
) -> u32
    requires { Fitting store.now copy.now (viewed n used last seat) × (i < 32) }
    ensures { result ≡ status_of (store_history store.now) i (entry_in copy.now i) }
{
    let v = entries::View {
        n,
        used,
        last,
        seat,
    };
    entries::status_at(store, copy, v, i).status
}
