// The inner calls: on a store known to be accepted and, where they take one, a working copy known to fit it. Nothing is checked again.
#![tactic(auto)]

ghost use Rattle.std.specs.Prelude.{◌||◌, [], ◌≡◌, eqb, ltb};
ghost use Rattle.entries.specs.View.{Fitting};
ghost use Rattle.inner.specs.Performs.{CommitsAs, Performs, ReleasesAs, call_of, moved_as, stay_as, unmoved_as};
ghost use Rattle.inner.specs.Place.{Located, has_own};
ghost use Rattle.model.specs.Calls.{clear_cut_call, commit_cut_call, log_call, panel_place, read_place, release_call, show_place, status_call};
ghost use Rattle.model.specs.Refusals.{no_seat, no_sheet};
ghost use Rattle.model.specs.Types.{answer_of, created_as};
ghost use Rattle.store.specs.Opened.{open_of};

use entries::View;
use filing::Filed;
use model::{Answer, Place, Refusal, Span, State};
use store::Header;

// A call with its numbers: the sheet (add and edit take bytes beside it), from and to, stamp and mask, mask and revision, revision and sheet; of a cut call also the number of
// block writes that it stops after; of a release revision, seat and stamp.
#[derive(Clone, Copy)]
pub enum Call {
    Add(u32),
    Edit(u32),
    Delete(u32),
    Copy(u32, u32),
    Move(u32, u32),
    Commit(u32, u32),
    Update(u32, u32),
    Revert(u32),
    Read(u32, u32),
    Show(u32),
    Status(u32),
    Log(u32, u32),
    Clear,
    CommitCut(u32, u32, u32),
    ClearCut(u32),
    Release(u32, u32, u32),
    Panel(u32, u32),
}

// What a call answers; read, a panel's reading and show, where the bytes stand.
#[derive(Clone, Copy)]
pub enum Reply {
    Said(Result<Answer, Refusal>),
    At(Result<Place, Refusal>),
}

// ---- looking

// Line 7 of read and log: a sheet number above 31, or a revision above the last.
fn beyond(h: Header, revision: u32, sheet: u32) -> bool
    ensures { result ≡ (no_sheet sheet || ltb h.last revision) }
{
    31 < sheet || h.last < revision as usize
}

// The companion of read, on a store that is open.
pub fn place_in(store: &[u8], h: Header, revision: u32, sheet: u32) -> Result<Place, Refusal>
    requires { open_of store.now ≡ Ok h }
    ensures { Located store.now [] (read_place store.now revision sheet) result }
{
    if beyond(h, revision, sheet) {
        return Err(Refusal::Range);
    }
    let n = store.len() / 512;
    let found = search::look_up(store, n, h.used, revision as usize, sheet as usize);
    if found.block == 0 {
        return Err(Refusal::Missing);
    }
    Ok(Place::InStore(search::span_at(store, found.block), found.revision))
}

// The companion of a panel's reading, on a store that is open: what read's gives at the greatest released revision up to this one. Tree 0, where there is none, has no sheet.
pub fn panel_in(store: &[u8], h: Header, revision: u32, sheet: u32) -> Result<Place, Refusal>
    requires { open_of store.now ≡ Ok h }
    ensures { Located store.now [] (panel_place store.now revision sheet) result }
{
    if h.last < revision as usize {
        return Err(Refusal::Range);
    }
    let released = marks::greatest(store, h.used, revision);
    place_in(store, h, released, sheet)
}

// Log on a store that is open.
pub fn log_in(store: &[u8], h: Header, revision: u32, sheet: u32) -> Result<Answer, Refusal>
    requires { open_of store.now ≡ Ok h }
    ensures { answer_of result ≡ log_call store.now revision sheet }
{
    if revision == 0 {
        return Err(Refusal::Range);
    }
    if beyond(h, revision, sheet) {
        return Err(Refusal::Range);
    }
    let n = store.len() / 512;
    Ok(Answer::Logged(search::log_at(store, n, h.used, revision as usize, sheet as usize)))
}

// Whether an entry in this state has bytes of its own.
fn own_bytes(s: State) -> bool
    ensures { result ≡ has_own s }
{
    matches!(s, State::Normal(_) | State::Added | State::Copied(_))
}

// The companion of show, on a store and a working copy that fits it.
pub fn shown_in<'a>(store: &'a [u8], copy: &'a [u8], v: View, sheet: u32) -> Result<Place, Refusal>
    requires { Fitting store.now copy.now v }
    ensures { Located store.now copy.now (show_place store.now copy.now sheet) result }
{
    if 31 < sheet {
        return Err(Refusal::Range);
    }
    let i = sheet as usize;
    let e = workcopy::entry_at(copy, i);
    if own_bytes(e.state) {
        let start = 512 * (1 + i) + 16;
        return Ok(Place::InCopy(Span { start, len: e.len }));
    }
    let found = search::look_up(store, v.n, v.used, v.last, i);
    if found.block == 0 {
        return Err(Refusal::Missing);
    }
    Ok(Place::InStore(search::span_at(store, found.block), found.revision))
}

// The status of an entry, on a store and a working copy that fits it.
pub fn status_in<'a>(
    store: &'a [u8],
    copy: &'a [u8],
    v: View,
    sheet: u32,
) -> Result<Answer, Refusal>
    requires { Fitting store.now copy.now v }
    ensures { answer_of result ≡ status_call store.now copy.now sheet }
{
    if 31 < sheet {
        return Err(Refusal::Range);
    }
    Ok(Answer::Status(entries::status_at(store, copy, v, sheet as usize)))
}

// ---- the tail

// Clears the tail of a store that is open, and stops after n block writes.
pub fn clear_in(store: &mut [u8], h: Header, n: usize) -> Result<Answer, Refusal>
    requires { open_of store.old ≡ Ok h }
    ensures { created_as result store.new ≡ clear_cut_call store.old n }
{
    let used = h.used;
    let count = tails::count(store, used);
    if tails::clear(store, used, count, n) {
        return Ok(Answer::Done);
    }
    Ok(Answer::Stopped)
}

// Commit on a store and a working copy that fits it, stopped after n block writes: refused where the store has a tail.
fn commit_in(store: &mut [u8], copy: &mut [u8], v: View, stamp: u32, mask: u32, n: usize) -> Filed
    requires { Fitting store.old copy.old v }
    ensures { CommitsAs (commit_cut_call store.old copy.old stamp mask n) result store.new copy.new }
{
    if tails::has(store, v.used) {
        return Filed {
            answer: Err(Refusal::Tail),
            used: v.used,
            last: v.last,
        };
    }
    filing::commit(store, copy, v, stamp, mask, n)
}

// ---- a release

// Line 7 of a release: a seat outside 1 to 4, a revision above the last, or revision 0.
fn unreleasable(h: Header, revision: u32, seat: u32) -> bool
    ensures { result ≡ (no_seat seat || (eqb revision 0 || ltb h.last revision)) }
{
    !(1..=4).contains(&seat) || revision == 0 || h.last < revision as usize
}

// Refused: the store's numbers stay.
fn unmoved(h: Header, k: Refusal) -> Filed
    ensures { result ≡ unmoved_as h k }
{
    Filed {
        answer: Err(k),
        used: h.used,
        last: h.last,
    }
}

// A release on a store that is open: its one block is written in the place of the first zero block.
pub fn release_in(store: &mut [u8], h: Header, revision: u32, seat: u32, stamp: u32) -> Filed
    requires { open_of store.old ≡ Ok h }
    ensures { ReleasesAs (release_call store.old revision seat stamp) result store.new }
{
    if tails::has(store, h.used) {
        return unmoved(h, Refusal::Tail);
    }
    if unreleasable(h, revision, seat) {
        return unmoved(h, Refusal::Range);
    }
    if marks::is_released(store, h.used, revision) {
        return unmoved(h, Refusal::Released);
    }
    if store.len() / 512 <= h.used {
        return unmoved(h, Refusal::NoRoom);
    }
    writer::put_release(store, h.used, revision as usize, seat as u8, stamp);
    let used = h.used + 1;
    Filed {
        answer: Ok(Answer::Done),
        used,
        last: h.last,
    }
}

// ---- any call

// What a call answered, and the store's blocks in use and last revision then.
#[derive(Clone, Copy)]
pub struct Performed {
    pub reply: Reply,
    pub used: usize,
    pub last: usize,
}

// The store's numbers stay.
fn stay(v: View, reply: Reply) -> Performed
    ensures { result ≡ stay_as v reply }
{
    Performed {
        reply,
        used: v.used,
        last: v.last,
    }
}

// What was filed, and the store's numbers then.
fn moved(filed: Filed) -> Performed
    ensures { result ≡ moved_as filed }
{
    Performed {
        reply: Reply::Said(filed.answer),
        used: filed.used,
        last: filed.last,
    }
}

// The call is done or refused, and both buffers fit again. A commit has 33 block writes at most, a tail 33 blocks.
pub fn perform(store: &mut [u8], copy: &mut [u8], v: View, call: Call, bytes: &[u8]) -> Performed
    requires { Fitting store.old copy.old v }
    ensures { Performs store.old copy.old v (call_of call bytes.now) result store.new copy.new }
{
    let h = Header {
        last: v.last,
        used: v.used,
    };
    match call {
        Call::Add(sheet) => stay(v, Reply::Said(local::add(copy, sheet, bytes))),
        Call::Edit(sheet) => stay(v, Reply::Said(local::edit(copy, sheet, bytes))),
        Call::Delete(sheet) => stay(v, Reply::Said(local::delete(copy, sheet))),
        Call::Copy(from, to) => stay(v, Reply::Said(local::copy_sheet(copy, from, to))),
        Call::Move(from, to) => stay(v, Reply::Said(local::move_sheet(copy, from, to))),
        Call::Commit(stamp, mask) => moved(commit_in(store, copy, v, stamp, mask, 33)),
        Call::Update(mask, revision) => {
            stay(
                v,
                Reply::Said(updates::update(store, copy, v, mask, revision)),
            )
        }
        Call::Revert(mask) => stay(v, Reply::Said(updates::revert(store, copy, v, mask))),
        Call::Read(revision, sheet) => stay(v, Reply::At(place_in(store, h, revision, sheet))),
        Call::Show(sheet) => stay(v, Reply::At(shown_in(store, copy, v, sheet))),
        Call::Status(sheet) => stay(v, Reply::Said(status_in(store, copy, v, sheet))),
        Call::Log(revision, sheet) => stay(v, Reply::Said(log_in(store, h, revision, sheet))),
        Call::Clear => stay(v, Reply::Said(clear_in(store, h, 33))),
        Call::CommitCut(stamp, mask, n) => {
            moved(commit_in(store, copy, v, stamp, mask, n as usize))
        }
        Call::ClearCut(n) => stay(v, Reply::Said(clear_in(store, h, n as usize))),
        Call::Release(revision, seat, stamp) => {
            moved(release_in(store, h, revision, seat, stamp))
        }
        Call::Panel(revision, sheet) => stay(v, Reply::At(panel_in(store, h, revision, sheet))),
    }
}
