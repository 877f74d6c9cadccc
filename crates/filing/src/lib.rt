// The commit of a working copy that fits an accepted store: which chosen entries are changed and where a copy's source stands, refusals 7, 10, 11 and 13, the writing,
// whole or stopped after n block writes, and what it leaves in the copy. The chosen sheets are visited the lowest first.
#![tactic(auto)]

ghost use Rattle.std.specs.Prelude.{◌<◌, ◌≡◌, length, set};
ghost use Rattle.commits.specs.Outcome.{RightFlags};
ghost use Rattle.entries.specs.View.{Fitting, entry_in};
ghost use Rattle.filing.specs.Filed.{FiledAs, inner_cut, unfiled_as};
ghost use Rattle.filing.specs.Inner.{Settling, altered, settled_as, settled_rows, settled_state, source_block, stays_as};
ghost use Rattle.model.specs.Calls.{side_in};
ghost use Rattle.model.specs.Refusals.{some_stale};
ghost use Rattle.model.specs.Store.{store_history, tail_of};
ghost use Rattle.model.specs.WorkCopy.{copy_bytes, entries_of, seat_of};

use commits::Outcome;
use entries::View;
use model::{Answer, Entry, Refusal, State};

// ---- what is found out before

// Whether some chosen entry is out of date.
fn any_stale<'a>(store: &'a [u8], copy: &'a [u8], v: View, mask: u32) -> bool
    requires { Fitting store.now copy.now v }
    ensures { result ≡ some_stale (side_in store.now copy.now) mask }
{
    for k in masks::Chosen(mask) {
        if entries::is_stale(store, copy, v, k) {
            return true;
        }
    }
    false
}

// Whether entry k is normal and modified, or copied and its bytes are not its source's.
fn flag_of<'a>(store: &'a [u8], copy: &'a [u8], v: View, k: usize) -> bool
    requires { Fitting store.now copy.now v × (k < 32) }
    ensures { result ≡ altered (store_history store.now) k (entry_in copy.now k) }
{
    match workcopy::entry_at(copy, k).state {
        State::Normal(base) => entries::differs(store, copy, v, k, base as usize, k),
        State::Copied(s) => {
            entries::differs(store, copy, v, k, s.revision as usize, s.sheet as usize)
        }
        State::Empty | State::Added | State::Deleted(_) => false,
    }
}

// The block that the source of a copied entry uses, else 0.
fn place_of<'a>(store: &'a [u8], copy: &'a [u8], v: View, k: usize) -> u16
    requires { Fitting store.now copy.now v × (k < 32) }
    ensures { result ≡ source_block store.now (entry_in copy.now k) }
{
    match workcopy::entry_at(copy, k).state {
        State::Copied(s) => {
            let r = s.revision as usize;
            let i = s.sheet as usize;
            search::look_up(store, v.n, v.used, r, i).block as u16
        }
        _ => 0,
    }
}

// For each sheet 1 where its entry differs from its base or source, else 0; and the block that its entry's source uses.
#[derive(Clone, Copy)]
struct Flags {
    changed: [u8; 32],
    places: [u16; 32],
}

// The flags of the chosen entries.
fn note_flags<'a>(store: &'a [u8], copy: &'a [u8], v: View, mask: u32) -> Flags
    requires { Fitting store.now copy.now v }
    ensures { RightFlags store.now copy.now mask result.changed result.places }
{
    let mut changed: [u8; 32] = [0; 32];
    let mut places: [u16; 32] = [0; 32];
    for k in masks::Chosen(mask) {
        changed[k] = flag_of(store, copy, v, k) as u8;
        places[k] = place_of(store, copy, v, k);
    }
    Flags { changed, places }
}

// ---- what is left in the copy

// Whether a chosen entry stays as it is: it is not pending.
fn stays(s: State, flag: u8) -> bool
    ensures { result ≡ stays_as flag s }
{
    match s {
        State::Empty => true,
        State::Normal(_) => flag == 0,
        State::Added | State::Deleted(_) | State::Copied(_) => false,
    }
}

// The state of a pending entry after the commit.
fn settled_state(s: State, revision: u32) -> State
    ensures { result ≡ settled_state revision s }
{
    match s {
        State::Normal(_) | State::Added | State::Copied(_) => State::Normal(revision),
        State::Empty | State::Deleted(_) => State::Empty,
    }
}

// Entry k after the commit that chose it.
fn settle_one(copy: &mut [u8], k: usize, revision: u32, flag: u8)
    requires { Settling copy.old revision × (k < 32) }
    ensures { copy.new ≡ copy_bytes (seat_of copy.old) (set (entries_of copy.old) k (settled_as revision flag (entry_in copy.old k))) }
{
    let e = workcopy::entry_at(copy, k);
    if stays(e.state, flag) {
        return;
    }
    let state = settled_state(e.state, revision);
    workcopy::set_entry(copy, k, Entry { state, ..e });
}

// The chosen entries after the commit.
fn settle(copy: &mut [u8], mask: u32, revision: u32, changed: &[u8])
    requires { Settling copy.old revision × (length changed.now ≡ 32) }
    ensures { copy.new ≡ copy_bytes (seat_of copy.old) (settled_rows revision changed.now mask (entries_of copy.old)) }
{
    for k in masks::Chosen(mask) {
        settle_one(copy, k, revision, changed[k]);
    }
}

// ---- the commit

// The answer of a commit, and the store's blocks in use and last revision then.
#[derive(Clone, Copy)]
pub struct Filed {
    pub answer: Result<Answer, Refusal>,
    pub used: usize,
    pub last: usize,
}

// Nothing is filed: the store's numbers stay.
fn unfiled(v: View, k: Refusal) -> Filed
    ensures { result ≡ unfiled_as v k }
{
    Filed {
        answer: Err(k),
        used: v.used,
        last: v.last,
    }
}

// Commits the chosen entries into a store without a tail and stops after n block writes, or the refusal.
pub fn commit(store: &mut [u8], copy: &mut [u8], v: View, stamp: u32, mask: u32, n: usize) -> Filed
    requires { Fitting store.old copy.old v × (tail_of store.old ≡ 0) }
    ensures { FiledAs (inner_cut store.old copy.old stamp mask n) result store.new copy.new }
{
    if mask == 0 {
        return unfiled(v, Refusal::Range);
    }
    if any_stale(store, copy, v, mask) {
        return unfiled(v, Refusal::OutOfDate);
    }
    let flags = note_flags(store, copy, v, mask);
    let changed = flags.changed;
    let places = flags.places;
    let last = v.last;
    let next = last + 1;
    let seat = v.seat as u8;
    let o = commits::commit_chosen(
        store, n, v.used, next, seat, stamp, mask, copy, &changed, &places,
    );
    match o {
        Err(k) => unfiled(v, k),
        Ok(Outcome::Stopped) => Filed {
            answer: Ok(Answer::Stopped),
            used: v.used,
            last: v.last,
        },
        Ok(Outcome::Done(used)) => {
            let revision = next as u32;
            settle(copy, mask, revision, &changed);
            Filed {
                answer: Ok(Answer::Revision(revision)),
                used,
                last: next,
            }
        }
    }
}
