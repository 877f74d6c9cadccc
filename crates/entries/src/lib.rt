// The entries of a working copy held against an accepted store: whether the copy fits, and what each entry is. Inner functions but for `check`, which takes any two buffers.
#![tactic(auto)]

ghost use Rattle.std.specs.Prelude.{◌<◌, ◌≤◌, not, ◌≡◌};
ghost use Rattle.std.proofs.Math.Option.{none};
ghost use Rattle.model.specs.Calls.{store_conditions};
ghost use Rattle.model.specs.Entry.{pending};
ghost use Rattle.model.specs.Fitting.{fits_entry, fits_store};
ghost use Rattle.model.specs.Fitting.{has as has_sheet};
ghost use Rattle.model.specs.History.{is_bytes, named_after, sheet};
ghost use Rattle.model.specs.Machine.{status_of};
ghost use Rattle.model.specs.Refusals.{first_of, out_of_date};
ghost use Rattle.model.specs.Store.{store_history, used_of};
ghost use Rattle.model.specs.WorkCopy.{entries_of};
ghost use Rattle.store.specs.Opened.{open_of};
ghost use Rattle.search.specs.Find.{found_in};
ghost use Rattle.workcopy.specs.Copy.{Accepted as CopyAccepted};
ghost use Rattle.entries.specs.View.{Fitting, Holding, Opened, UpdateIs, Viewed, agreed_as, bytes_of, check_of, entry_in, held_in, normal_status, standing_of, taken_as};

use model::{Refusal, Standing, State};
use search::Found;
use store::Header;

// What is known of two buffers that are accepted: the store's blocks, its used blocks and last revision, and the copy's seat.
#[derive(Clone, Copy)]
pub struct View {
    pub n: usize,
    pub used: usize,
    pub last: usize,
    pub seat: u32,
}

// What tree r has of sheet i, and the last commit up to r that names the sheet.
fn look_up(store: &[u8], v: View, r: usize, i: usize) -> Found
    requires { Opened store.now v × (r ≤ v.last) × (i < 32) }
    ensures is { result ≡ found_in store.now r i }
    ensures holds { Holding store.now (sheet (store_history store.now) r i) result.block }
{
    search::look_up(store, v.n, v.used, r, i)
}

// Whether revision r is at most the last and its tree has sheet i.
fn has(store: &[u8], v: View, r: usize, i: usize) -> bool
    requires { Opened store.now v }
    ensures { result ≡ has_sheet (store_history store.now) r i }
{
    r <= v.last && i < 32 && look_up(store, v, r, i).block != 0
}

// Whether the base or the source of entry i is there.
fn fits_at(store: &[u8], copy: &[u8], v: View, i: usize) -> bool
    requires { Viewed store.now copy.now v × (i < 32) }
    ensures { result ≡ fits_entry (store_history store.now) i (entry_in copy.now i) }
{
    match workcopy::entry_at(copy, i).state {
        State::Empty | State::Added => true,
        State::Normal(base) | State::Deleted(base) => has(store, v, base as usize, i),
        State::Copied(s) => has(store, v, s.revision as usize, s.sheet as usize),
    }
}

// Whether the working copy fits the store.
pub fn fits<'a>(store: &'a [u8], copy: &'a [u8], v: View) -> bool
    requires { Viewed store.now copy.now v }
    ensures { result ≡ fits_store (store_history store.now) (entries_of copy.now) }
{
    (0..32).all(|i| fits_at(store, copy, v, i))
}

// Refusals 4 to 6 in the document's order, or what is known of the two buffers, where the store is open.
pub fn check_copy<'a>(store: &'a [u8], copy: &'a [u8], h: Header) -> Result<View, Refusal>
    requires { open_of store.now ≡ Ok h }
    ensures { result ≡ check_of store.now copy.now }
{
    let seat = workcopy::accept(copy)?;
    let v = View {
        n: store.len() / 512,
        used: h.used,
        last: h.last,
        seat,
    };
    if !fits(store, copy, v) {
        return Err(Refusal::Unfit);
    }
    Ok(v)
}

// Refusals 1 to 6 in the document's order, or what is known of the two buffers.
pub fn check<'a>(store: &'a [u8], copy: &'a [u8]) -> Result<View, Refusal>
    ensures { result ≡ check_of store.now copy.now }
{
    let h = store::open(store)?;
    check_copy(store, copy, h)
}

// Whether the bytes of entry i are not those that block p holds, where 0 stands for no sheet.
fn unlike(store: &[u8], copy: &[u8], i: usize, p: usize) -> bool
    requires { (first_of (store_conditions store.now) ≡ none) × CopyAccepted copy.now × (i < 32) × (p < used_of store.now) }
    ensures { result ≡ not (is_bytes (bytes_of copy.now i) (held_in store.now p)) }
{
    if p == 0 {
        return true;
    }
    let held = search::span_at(store, p);
    let e = workcopy::entry_at(copy, i);
    let at = 512 * (i + 1) + 16;
    !shape::same_part(
        &copy[at..at + e.len],
        &store[held.start..held.start + held.len],
    )
}

// Whether the bytes of entry i are not those of sheet s at revision r.
pub fn differs<'a>(store: &'a [u8], copy: &'a [u8], v: View, i: usize, r: usize, s: usize) -> bool
    requires { Viewed store.now copy.now v × (i < 32) × (r ≤ v.last) × (s < 32) }
    ensures { result ≡ not (is_bytes (bytes_of copy.now i) (sheet (store_history store.now) r s)) }
{
    unlike(store, copy, i, look_up(store, v, r, s).block)
}

// Whether a commit after revision b names sheet i.
fn named_since(store: &[u8], v: View, b: u32, i: usize) -> bool
    requires { Opened store.now v × (i < 32) }
    ensures { result ≡ named_after (store_history store.now) b i }
{
    b < look_up(store, v, v.last, i).revision
}

// Whether entry i is pending.
pub fn is_pending<'a>(store: &'a [u8], copy: &'a [u8], v: View, i: usize) -> bool
    requires { Fitting store.now copy.now v × (i < 32) }
    ensures { result ≡ pending (store_history store.now) i (entry_in copy.now i) }
{
    match workcopy::entry_at(copy, i).state {
        State::Empty => false,
        State::Normal(base) => differs(store, copy, v, i, base as usize, i),
        _ => true,
    }
}

// Whether entry i is out of date.
pub fn is_stale<'a>(store: &'a [u8], copy: &'a [u8], v: View, i: usize) -> bool
    requires { Fitting store.now copy.now v × (i < 32) }
    ensures { result ≡ out_of_date (store_history store.now) i (entry_in copy.now i) }
{
    match workcopy::entry_at(copy, i).state {
        State::Empty => false,
        State::Normal(base) => {
            differs(store, copy, v, i, base as usize, i) && named_since(store, v, base, i)
        }
        State::Deleted(base) => named_since(store, v, base, i),
        State::Added | State::Copied(_) => has(store, v, v.last, i),
    }
}

// The status of a normal entry: a commit after its base names the sheet, and it is modified.
fn normal_status(later: bool, modified: bool) -> u32
    ensures { result ≡ normal_status later modified }
{
    match (later, modified) {
        (true, true) => 4,
        (true, false) => 3,
        (false, true) => 2,
        (false, false) => 1,
    }
}

// The block that holds sheet i at revision b, 0 for none, where f is what the last tree has: the same block, unless a commit after b names the sheet.
fn block_at(store: &[u8], v: View, f: Found, b: u32, i: usize) -> usize
    requires { Opened store.now v × (f ≡ found_in store.now v.last i) × (b ≤ v.last) × (i < 32) }
    ensures { Holding store.now (sheet (store_history store.now) b i) result }
{
    if b < f.revision {
        look_up(store, v, b as usize, i).block
    } else {
        f.block
    }
}

// The status of entry i, where f is what the last tree has of its sheet.
fn status_of(store: &[u8], copy: &[u8], v: View, i: usize, f: Found) -> u32
    requires { Fitting store.now copy.now v × (f ≡ found_in store.now v.last i) × (i < 32) }
    ensures { result ≡ status_of (store_history store.now) i (entry_in copy.now i) }
{
    match workcopy::entry_at(copy, i).state {
        State::Empty if f.block != 0 => 8,
        State::Empty => 0,
        State::Normal(base) => {
            let p = block_at(store, v, f, base, i);
            let modified = unlike(store, copy, i, p);
            normal_status(base < f.revision, modified)
        }
        State::Added => 5,
        State::Deleted(_) => 6,
        State::Copied(_) => 7,
    }
}

// The status of entry i, and the last commit that names its sheet: one look at the last tree for both.
pub fn status_at<'a>(store: &'a [u8], copy: &'a [u8], v: View, i: usize) -> Standing
    requires { Fitting store.now copy.now v × (i < 32) }
    ensures { result ≡ standing_of (store_history store.now) i (entry_in copy.now i) }
{
    let newest = look_up(store, v, v.last, i);
    let status = status_of(store, copy, v, i, newest);
    Standing {
        status,
        revision: newest.revision,
    }
}

// What update makes of an entry: a conflict; it stays; it becomes empty; it becomes normal with the bytes of a block of the store; it keeps its bytes and gets the new base.
#[derive(Clone, Copy)]
pub enum Update {
    Conflict,
    Stay,
    Clear,
    Take(usize),
    Rebase,
}

// The entry of a sheet that uses block p, or none: 0.
fn taken(p: usize) -> Update
    ensures { result ≡ taken_as p }
{
    match p {
        0 => Update::Clear,
        _ => Update::Take(p),
    }
}

// A pending entry whose bytes are those that block p holds is taken from there; any other is a conflict.
fn agreed(store: &[u8], copy: &[u8], i: usize, p: usize) -> Update
    requires { (first_of (store_conditions store.now) ≡ none) × CopyAccepted copy.now × (i < 32) × (p < used_of store.now) }
    ensures { result ≡ agreed_as (is_bytes (bytes_of copy.now i) (held_in store.now p)) p }
{
    if unlike(store, copy, i, p) {
        Update::Conflict
    } else {
        Update::Take(p)
    }
}

// What an update to r makes of entry i: one look at tree r, and one at its base's, for the block and the last commit that names the sheet.
pub fn update_of<'a>(store: &'a [u8], copy: &'a [u8], v: View, r: usize, i: usize) -> Update
    requires { Fitting store.now copy.now v × (i < 32) × (r ≤ v.last) }
    ensures { UpdateIs store.now copy.now r i result }
{
    let to = look_up(store, v, r, i);
    let p = to.block;
    match workcopy::entry_at(copy, i).state {
        State::Empty => taken(p),
        State::Normal(base) => {
            let from = look_up(store, v, base as usize, i);
            if !unlike(store, copy, i, from.block) {
                taken(p)
            } else if to.revision == from.revision {
                Update::Rebase
            } else {
                agreed(store, copy, i, p)
            }
        }
        State::Added | State::Copied(_) if p == 0 => Update::Stay,
        State::Added | State::Copied(_) => agreed(store, copy, i, p),
        State::Deleted(base) => {
            let from = look_up(store, v, base as usize, i);
            if to.revision == from.revision {
                Update::Rebase
            } else {
                Update::Conflict
            }
        }
    }
}
