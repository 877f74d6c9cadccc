// Every call of document 01, the clearing of a tail, commit and clearing that stop after n block writes, commit through the turn record, release and a panel's reading, total: each
// checks what it is handed in the document's order, and either does its work or answers the refusal and leaves every buffer unchanged.
// Each promise is one equation with the call's meaning in crates/model/specs/Calls.antt, of the commit through the record in crates/turns/specs/InTurn.antt. `call` takes any of the
// others as one request (specs/Request.antt).
#![tactic(auto)]

ghost use Rattle.std.specs.Prelude.{[], ◌≡◌};
ghost use Rattle.model.specs.Calls.{add_call, clear_call, clear_cut_call, commit_call, commit_cut_call, copy_call, create_copy, create_store, delete_call, edit_call, log_call, move_call, out, panel_place, part_of, read_place, release_call, revert_call, show_place, size_condition, status_call, update_call};
ghost use Rattle.model.specs.Types.{answer_of, created_as, place_of};
ghost use Rattle.engine.specs.MayCommit.{MayCommit};
ghost use Rattle.engine.specs.Part.{PartAt, ShownAt};
ghost use Rattle.engine.specs.Request.{answered, called, requested, tells_of};
ghost use Rattle.inner.specs.Performs.{Within, call_of};
ghost use Rattle.inner.specs.Place.{Inside, Located};
ghost use Rattle.turns.specs.InTurn.{in_turn_call};
ghost use Rattle.turns.specs.Turns.{numbers_of};

use entries::View;
use inner::{Call, Reply};
use model::{Answer, Place, Refusal};
use turns::TurnRecord;

// ---- create

// Refusal 1: the length is no multiple of 512, or there are fewer than 2 blocks or more than 4,096.
fn wrong_size(store: &[u8]) -> bool
    ensures { result ≡ (size_condition store.now).holds }
{
    store.len() % 512 != 0 || !(2..=4096).contains(&(store.len() / 512))
}

// A fresh store: the label and zero blocks.
pub fn create_store(store: &mut [u8]) -> Result<Answer, Refusal>
    ensures { created_as result store.new ≡ create_store store.old }
{
    if wrong_size(store) {
        return Err(Refusal::StoreLength);
    }
    let end = store.len();
    block::clear(store, 0, end);
    block::put(store, 0, 1);
    block::put(store, 1, 1);
    block::seal_at(store, 0);
    Ok(Answer::Done)
}

// A fresh working copy: its seat and 32 empty entries.
pub fn create_copy(copy: &mut [u8], seat: u32) -> Result<Answer, Refusal>
    ensures { created_as result copy.new ≡ create_copy copy.old seat }
{
    workcopy::create_copy(copy, seat)
}

// ---- looking

// The companion of read: the refusal, or where the bytes of the sheet stand in the store, and the last commit up to the revision that names the sheet.
pub fn read_place(store: &[u8], revision: u32, sheet: u32) -> Result<Place, Refusal>
    ensures { Located store.now [] (read_place store.now revision sheet) result }
{
    let h = store::open(store)?;
    inner::place_in(store, h, revision, sheet)
}

// The part of the store at a place; refused, the empty part at the store's start.
fn part_at(store: &[u8], place: Result<Place, Refusal>) -> &[u8]
    requires { Inside store.now [] place }
    ensures { PartAt store.entry result (part_of (place_of place)) }
{
    match place {
        Ok(Place::InStore(p, _)) => &store[p.start..p.start + p.len],
        _ => &store[0..0],
    }
}

// The sheet's bytes, a part of the store; refused, the empty part at the store's start.
pub fn read(store: &[u8], revision: u32, sheet: u32) -> &[u8]
    ensures { PartAt store.entry result (part_of (read_place store.now revision sheet)) }
{
    let place = read_place(store, revision, sheet);
    part_at(store, place)
}

// The companion of a panel's reading: what `read_place` gives at the greatest released revision up to this one, and refusal 8 if there is none.
pub fn panel_place(store: &[u8], revision: u32, sheet: u32) -> Result<Place, Refusal>
    ensures { Located store.now [] (panel_place store.now revision sheet) result }
{
    let h = store::open(store)?;
    inner::panel_in(store, h, revision, sheet)
}

// What a panel shows of a sheet, a part of the store; refused, the empty part at the store's start.
pub fn panel_read(store: &[u8], revision: u32, sheet: u32) -> &[u8]
    ensures { PartAt store.entry result (part_of (panel_place store.now revision sheet)) }
{
    let place = panel_place(store, revision, sheet);
    part_at(store, place)
}

// Seat, stamp and number of changes of a commit, and what it did to the sheet.
pub fn log(store: &[u8], revision: u32, sheet: u32) -> Result<Answer, Refusal>
    ensures { answer_of result ≡ log_call store.now revision sheet }
{
    let h = store::open(store)?;
    inner::log_in(store, h, revision, sheet)
}

// The companion of show: the refusal, or where the bytes stand, in the working copy or in the store; from the store, the last commit that names the sheet too.
pub fn show_place<'a>(store: &'a [u8], copy: &'a [u8], sheet: u32) -> Result<Place, Refusal>
    ensures { Located store.now copy.now (show_place store.now copy.now sheet) result }
{
    let v = entries::check(store, copy)?;
    inner::shown_in(store, copy, v, sheet)
}

// The seat's own bytes, a part of the working copy, or the last revision's, a part of the store; refused, the empty part at the store's start.
pub fn show<'a>(store: &'a [u8], copy: &'a [u8], sheet: u32) -> &'a [u8]
    ensures { ShownAt store.entry copy.entry result (show_place store.now copy.now sheet) }
{
    let place = show_place(store, copy, sheet);
    match place {
        Err(_) => &store[0..0],
        Ok(Place::InStore(p, _)) => &store[p.start..p.start + p.len],
        Ok(Place::InCopy(p)) => &copy[p.start..p.start + p.len],
    }
}

// The status of a sheet's entry, 0 to 8, and the last commit that names the sheet.
pub fn status<'a>(store: &'a [u8], copy: &'a [u8], sheet: u32) -> Result<Answer, Refusal>
    ensures { answer_of result ≡ status_call store.now copy.now sheet }
{
    let v = entries::check(store, copy)?;
    inner::status_in(store, copy, v, sheet)
}

// ---- changing a working copy

// Add: the empty entry of a sheet becomes added, with these bytes.
pub fn add(store: &[u8], copy: &mut [u8], sheet: u32, bytes: &[u8]) -> Result<Answer, Refusal>
    ensures { out (answer_of result) store.now copy.new ≡ add_call store.now copy.old sheet bytes.now }
{
    let v = entries::check(store, copy)?;
    local::add(copy, sheet, bytes)
}

// Edit: other bytes in a normal, added or copied entry.
pub fn edit(store: &[u8], copy: &mut [u8], sheet: u32, bytes: &[u8]) -> Result<Answer, Refusal>
    ensures { out (answer_of result) store.now copy.new ≡ edit_call store.now copy.old sheet bytes.now }
{
    let v = entries::check(store, copy)?;
    local::edit(copy, sheet, bytes)
}

// Delete: normal becomes deleted, added and copied become empty.
pub fn delete(store: &[u8], copy: &mut [u8], sheet: u32) -> Result<Answer, Refusal>
    ensures { out (answer_of result) store.now copy.new ≡ delete_call store.now copy.old sheet }
{
    let v = entries::check(store, copy)?;
    local::delete(copy, sheet)
}

// Copy: the empty entry of sheet `to` becomes a copy of that of sheet `from`.
pub fn copy_sheet(store: &[u8], copy: &mut [u8], from: u32, to: u32) -> Result<Answer, Refusal>
    ensures { out (answer_of result) store.now copy.new ≡ copy_call store.now copy.old from to }
{
    let v = entries::check(store, copy)?;
    local::copy_sheet(copy, from, to)
}

// Move: copy, then delete `from`.
pub fn move_sheet(store: &[u8], copy: &mut [u8], from: u32, to: u32) -> Result<Answer, Refusal>
    ensures { out (answer_of result) store.now copy.new ≡ move_call store.now copy.old from to }
{
    let v = entries::check(store, copy)?;
    local::move_sheet(copy, from, to)
}

// ---- the store and the working copy

// The check before a commit, through the turn record or not: a tail refuses it before the working copy is looked at.
fn check_to_commit<'a>(store: &'a [u8], copy: &'a [u8]) -> Result<View, Refusal>
    ensures { MayCommit store.now copy.now result }
{
    let h = store::open(store)?;
    if tails::has(store, h.used) {
        return Err(Refusal::Tail);
    }
    entries::check_copy(store, copy, h)
}

// Commit, stopped after n block writes with the copy untouched; with n enough for all its writes it is the usual commit.
pub fn commit_cut(
    store: &mut [u8],
    copy: &mut [u8],
    stamp: u32,
    mask: u32,
    n: u32,
) -> Result<Answer, Refusal>
    ensures { out (answer_of result) store.new copy.new ≡ commit_cut_call store.old copy.old stamp mask n }
{
    let v = check_to_commit(store, copy)?;
    filing::commit(store, copy, v, stamp, mask, n as usize).answer
}

// Commit: the chosen pending entries become the next revision. It has 33 block writes at most.
pub fn commit(store: &mut [u8], copy: &mut [u8], stamp: u32, mask: u32) -> Result<Answer, Refusal>
    ensures { out (answer_of result) store.new copy.new ≡ commit_call store.old copy.old stamp mask }
{
    commit_cut(store, copy, stamp, mask, 33)
}

// Commit through the turn record: the copy's seat must hold the turn.
pub fn commit_in_turn(
    store: &mut [u8],
    copy: &mut [u8],
    turn: TurnRecord,
    stamp: u32,
    mask: u32,
) -> Result<Answer, Refusal>
    ensures { out (answer_of result) store.new copy.new ≡ in_turn_call store.old copy.old (numbers_of turn) stamp mask }
{
    let v = check_to_commit(store, copy)?;
    if mask == 0 || !turns::in_form(turn) {
        return Err(Refusal::Range);
    }
    if turn.holder != v.seat {
        return Err(Refusal::NotHolding);
    }
    filing::commit(store, copy, v, stamp, mask, 33).answer
}

// Update: the chosen entries come to a revision, unless one is a conflict.
pub fn update(store: &[u8], copy: &mut [u8], mask: u32, revision: u32) -> Result<Answer, Refusal>
    ensures { out (answer_of result) store.now copy.new ≡ update_call store.now copy.old mask revision }
{
    let v = entries::check(store, copy)?;
    updates::update(store, copy, v, mask, revision)
}

// Revert: the chosen entries come back to their base.
pub fn revert(store: &[u8], copy: &mut [u8], mask: u32) -> Result<Answer, Refusal>
    ensures { out (answer_of result) store.now copy.new ≡ revert_call store.now copy.old mask }
{
    let v = entries::check(store, copy)?;
    updates::revert(store, copy, v, mask)
}

// ---- the tail

// Clear, stopped after n block writes; with n enough for all its writes it is the usual clear.
pub fn clear_cut(store: &mut [u8], n: u32) -> Result<Answer, Refusal>
    ensures { created_as result store.new ≡ clear_cut_call store.old n }
{
    let h = store::open(store)?;
    inner::clear_in(store, h, n as usize)
}

// Clear: the blocks of the tail, 33 at most, become zero blocks, from the highest down.
pub fn clear(store: &mut [u8]) -> Result<Answer, Refusal>
    ensures { created_as result store.new ≡ clear_call store.old }
{
    clear_cut(store, 33)
}

// ---- a release

// Release: the poolside panels may show this revision.
pub fn release(store: &mut [u8], revision: u32, seat: u32, stamp: u32) -> Result<Answer, Refusal>
    ensures { created_as result store.new ≡ release_call store.old revision seat stamp }
{
    let h = store::open(store)?;
    inner::release_in(store, h, revision, seat, stamp).answer
}

// ---- any call

// A request: create of the store, create of the copy for a seat, or a call.
#[derive(Clone, Copy)]
pub enum Request {
    CreateStore,
    CreateCopy(u32),
    Call(Call),
}

// One of the seventeen calls, by its own function.
fn call_named(store: &mut [u8], copy: &mut [u8], named: Call, bytes: &[u8]) -> Reply
    ensures { (answered (tells_of result) store.new copy.new ≡ called store.old copy.old (call_of named bytes.now)) × Within store.new copy.new result }
{
    match named {
        Call::Add(sheet) => Reply::Said(add(store, copy, sheet, bytes)),
        Call::Edit(sheet) => Reply::Said(edit(store, copy, sheet, bytes)),
        Call::Delete(sheet) => Reply::Said(delete(store, copy, sheet)),
        Call::Copy(from, to) => Reply::Said(copy_sheet(store, copy, from, to)),
        Call::Move(from, to) => Reply::Said(move_sheet(store, copy, from, to)),
        Call::Commit(stamp, mask) => Reply::Said(commit(store, copy, stamp, mask)),
        Call::Update(mask, revision) => Reply::Said(update(store, copy, mask, revision)),
        Call::Revert(mask) => Reply::Said(revert(store, copy, mask)),
        Call::Read(revision, sheet) => Reply::At(read_place(store, revision, sheet)),
        Call::Show(sheet) => Reply::At(show_place(store, copy, sheet)),
        Call::Status(sheet) => Reply::Said(status(store, copy, sheet)),
        Call::Log(revision, sheet) => Reply::Said(log(store, revision, sheet)),
        Call::Clear => Reply::Said(clear(store)),
        Call::CommitCut(stamp, mask, n) => Reply::Said(commit_cut(store, copy, stamp, mask, n)),
        Call::ClearCut(n) => Reply::Said(clear_cut(store, n)),
        Call::Release(revision, seat, stamp) => Reply::Said(release(store, revision, seat, stamp)),
        Call::Panel(revision, sheet) => Reply::At(panel_place(store, revision, sheet)),
    }
}

// The engine as one piece: any request on any two buffers. A create leaves the other buffer.
pub fn call(store: &mut [u8], copy: &mut [u8], request: Request, bytes: &[u8]) -> Reply
    ensures { (answered (tells_of result) store.new copy.new ≡ requested store.old copy.old request bytes.now) × Within store.new copy.new result }
{
    match request {
        Request::CreateStore => Reply::Said(create_store(store)),
        Request::CreateCopy(seat) => Reply::Said(create_copy(copy, seat)),
        Request::Call(named) => call_named(store, copy, named, bytes),
    }
}
