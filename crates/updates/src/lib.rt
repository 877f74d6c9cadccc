// Update and revert on an accepted store and a working copy that fits it. The chosen entries are visited the lowest first.
#![tactic(auto)]

ghost use Rattle.std.specs.Prelude.{◌<◌, ◌≤◌, ◌≡◌, set};
ghost use Rattle.entries.specs.View.{Fitting, entry_in};
ghost use Rattle.model.specs.Blocks.{bytes_at};
ghost use Rattle.model.specs.Calls.{side_in};
ghost use Rattle.model.specs.Entry.{empty, normal};
ghost use Rattle.model.specs.History.{sheet};
ghost use Rattle.model.specs.Invariant.{Base};
ghost use Rattle.model.specs.Machine.{Revert, as_in, reverted, reverted_of, updated};
ghost use Rattle.model.specs.Machine.{Update as UpdateCall};
ghost use Rattle.model.specs.Refusals.{some_conflict};
ghost use Rattle.model.specs.Store.{store_blocks, store_history};
ghost use Rattle.model.specs.WorkCopy.{copy_bytes, entries_of, seat_of};
ghost use Rattle.updates.specs.Inner.{Takable, conflicting, rebased_state, updated_of};
ghost use Rattle.entries.specs.View.{inner_out, out_as};
ghost use Rattle.workcopy.specs.Copy.{Accepted};

use entries::{Update, View};
use model::{Answer, Entry, Refusal, State};

// ---- one entry

// Entry k becomes normal with base r and the bytes of block p of the store.
fn take_block(store: &[u8], copy: &mut [u8], k: usize, r: u32, p: usize)
    requires { Takable store.now copy.old k r p }
    ensures { copy.new ≡ copy_bytes (seat_of copy.old) (set (entries_of copy.old) k (normal r (bytes_at (store_blocks store.now) p))) }
{
    let held = search::span_at(store, p);
    let e = Entry {
        state: State::Normal(r),
        len: held.len,
    };
    workcopy::put_entry(copy, k, e, &store[held.start..held.start + held.len]);
}

// Entry k becomes empty.
fn clear(copy: &mut [u8], k: usize)
    requires { Accepted copy.old × (k < 32) }
    ensures { copy.new ≡ copy_bytes (seat_of copy.old) (set (entries_of copy.old) k empty) }
{
    let e = Entry {
        state: State::Empty,
        len: 0,
    };
    workcopy::set_entry(copy, k, e);
}

// The state with the base r, where it has a base.
fn rebased(s: State, r: u32) -> State
    ensures { result ≡ rebased_state r s }
{
    match s {
        State::Normal(_) => State::Normal(r),
        State::Deleted(_) => State::Deleted(r),
        _ => s,
    }
}

// ---- revert

// Entry k becomes normal with base r and tree r's bytes, which are there.
fn take_sheet(store: &[u8], copy: &mut [u8], v: View, r: u32, k: usize)
    requires { Fitting store.now copy.old v × (k < 32) × Base (store_history store.now) r k }
    ensures { copy.new ≡ copy_bytes (seat_of copy.old) (set (entries_of copy.old) k (as_in r (sheet (store_history store.now) r k))) }
{
    let f = search::look_up(store, v.n, v.used, r as usize, k);
    take_block(store, copy, k, r, f.block);
}

// Entry k goes back to its base.
fn revert_one(store: &[u8], copy: &mut [u8], v: View, k: usize)
    requires { Fitting store.now copy.old v × (k < 32) }
    ensures { copy.new ≡ copy_bytes (seat_of copy.old) (set (entries_of copy.old) k (reverted_of (store_history store.now) k (entry_in copy.old k))) }
{
    match workcopy::entry_at(copy, k).state {
        State::Empty => {}
        State::Normal(base) | State::Deleted(base) => take_sheet(store, copy, v, base, k),
        State::Added | State::Copied(_) => clear(copy, k),
    }
}

// The chosen entries go back to their bases.
fn revert_all(store: &[u8], copy: &mut [u8], v: View, mask: u32)
    requires { Fitting store.now copy.old v }
    ensures { copy.new ≡ copy_bytes (seat_of copy.old) (reverted (store_history store.now) mask (entries_of copy.old)) }
{
    for k in masks::Chosen(mask) {
        revert_one(store, copy, v, k);
    }
}

// Revert, or the refusal.
pub fn revert(store: &[u8], copy: &mut [u8], v: View, mask: u32) -> Result<Answer, Refusal>
    requires { Fitting store.now copy.old v }
    ensures { out_as result store.now copy.new ≡ inner_out store.now copy.old (Revert mask) }
{
    if mask == 0 {
        return Err(Refusal::Range);
    }
    revert_all(store, copy, v, mask);
    Ok(Answer::Done)
}

// ---- update

// Whether an update to r makes nothing of entry k.
fn conflicts(store: &[u8], copy: &[u8], v: View, r: usize, k: usize) -> bool
    requires { Fitting store.now copy.now v × (k < 32) × (r ≤ v.last) }
    ensures { result ≡ conflicting store.now copy.now r k }
{
    matches!(entries::update_of(store, copy, v, r, k), Update::Conflict)
}

// Whether an update to r makes nothing of some chosen entry.
fn any_conflict(store: &[u8], copy: &[u8], v: View, mask: u32, r: usize) -> bool
    requires { Fitting store.now copy.now v × (r ≤ v.last) }
    ensures { result ≡ some_conflict (side_in store.now copy.now) mask r }
{
    for k in masks::Chosen(mask) {
        if conflicts(store, copy, v, r, k) {
            return true;
        }
    }
    false
}

// Entry k as an update to r makes it, or as it was.
fn update_one(store: &[u8], copy: &mut [u8], v: View, r: u32, k: usize)
    requires { Fitting store.now copy.old v × (k < 32) × (r ≤ v.last) }
    ensures { copy.new ≡ copy_bytes (seat_of copy.old) (set (entries_of copy.old) k (updated_of (store_history store.now) r k (entry_in copy.old k))) }
{
    match entries::update_of(store, copy, v, r as usize, k) {
        Update::Conflict | Update::Stay => {}
        Update::Clear => clear(copy, k),
        Update::Take(p) => take_block(store, copy, k, r, p),
        Update::Rebase => {
            let e = workcopy::entry_at(copy, k);
            let state = rebased(e.state, r);
            workcopy::set_entry(copy, k, Entry { state, ..e });
        }
    }
}

// The chosen entries as an update to r makes them.
fn update_all(store: &[u8], copy: &mut [u8], v: View, mask: u32, r: u32)
    requires { Fitting store.now copy.old v × (r ≤ v.last) }
    ensures { copy.new ≡ copy_bytes (seat_of copy.old) (updated (store_history store.now) mask r (entries_of copy.old)) }
{
    for k in masks::Chosen(mask) {
        update_one(store, copy, v, r, k);
    }
}

// Update, or the refusal.
pub fn update(
    store: &[u8],
    copy: &mut [u8],
    v: View,
    mask: u32,
    revision: u32,
) -> Result<Answer, Refusal>
    requires { Fitting store.now copy.old v }
    ensures { out_as result store.now copy.new ≡ inner_out store.now copy.old (UpdateCall mask revision) }
{
    if mask == 0 || v.last < revision as usize {
        return Err(Refusal::Range);
    }
    if any_conflict(store, copy, v, mask, revision as usize) {
        return Err(Refusal::Conflict);
    }
    update_all(store, copy, v, mask, revision);
    Ok(Answer::Done)
}
