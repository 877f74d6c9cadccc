// The calls that look at nothing of a store, on an accepted working copy: add, edit, delete, copy, move.
#![tactic(auto)]

ghost use Rattle.std.specs.Prelude.{ℕ, List, [], ◌≡◌};
ghost use Rattle.local.specs.Local.{local_out, out};
ghost use Rattle.model.specs.Machine.{Add, Copy, Delete, Edit, Move, copy_of, removed};
ghost use Rattle.model.specs.Refusals.{nothing_in};
ghost use Rattle.model.specs.Types.{answer_of, entry_as};
ghost use Rattle.workcopy.specs.Copy.{Accepted};

use model::{Answer, Entry, Refusal, Source, State};

// Whether it is empty or deleted.
fn nothing_in(s: State) -> bool
    ensures { result ≡ nothing_in (entry_as s []) }
{
    matches!(s, State::Empty | State::Deleted(_))
}

// The state after a delete.
fn after_delete(s: State) -> State
    ensures { entry_as result [] ≡ removed (entry_as s []) }
{
    match s {
        State::Normal(base) | State::Deleted(base) => State::Deleted(base),
        State::Empty | State::Added | State::Copied(_) => State::Empty,
    }
}

// The state of a copy that is taken from a sheet in this state.
fn copied_from(sheet: u32, s: State) -> State
    ensures { (b : List ℕ) → entry_as result b ≡ copy_of sheet (entry_as s b) }
{
    match s {
        State::Normal(revision) => State::Copied(Source { sheet, revision }),
        State::Added | State::Copied(_) => s,
        State::Empty | State::Deleted(_) => State::Empty,
    }
}

// Add: the empty entry of a sheet becomes added, with these bytes.
pub fn add(copy: &mut [u8], sheet: u32, bytes: &[u8]) -> Result<Answer, Refusal>
    requires { Accepted copy.old }
    ensures { out result copy.new ≡ local_out copy.old (Add sheet bytes.now) }
{
    if 31 < sheet || 480 < bytes.len() {
        return Err(Refusal::Range);
    }
    let i = sheet as usize;
    let was = workcopy::entry_at(copy, i).state;
    if was != State::Empty {
        return Err(Refusal::Occupied);
    }
    let e = Entry {
        state: State::Added,
        len: bytes.len(),
    };
    workcopy::put_entry(copy, i, e, bytes);
    Ok(Answer::Done)
}

// Edit: other bytes in a normal, added or copied entry.
pub fn edit(copy: &mut [u8], sheet: u32, bytes: &[u8]) -> Result<Answer, Refusal>
    requires { Accepted copy.old }
    ensures { out result copy.new ≡ local_out copy.old (Edit sheet bytes.now) }
{
    if 31 < sheet || 480 < bytes.len() {
        return Err(Refusal::Range);
    }
    let i = sheet as usize;
    let was = workcopy::entry_at(copy, i).state;
    if nothing_in(was) {
        return Err(Refusal::Missing);
    }
    let e = Entry {
        state: was,
        len: bytes.len(),
    };
    workcopy::put_entry(copy, i, e, bytes);
    Ok(Answer::Done)
}

// Delete: normal becomes deleted, added and copied become empty.
pub fn delete(copy: &mut [u8], sheet: u32) -> Result<Answer, Refusal>
    requires { Accepted copy.old }
    ensures { out result copy.new ≡ local_out copy.old (Delete sheet) }
{
    if 31 < sheet {
        return Err(Refusal::Range);
    }
    let i = sheet as usize;
    let was = workcopy::entry_at(copy, i).state;
    if nothing_in(was) {
        return Err(Refusal::Missing);
    }
    let state = after_delete(was);
    workcopy::set_entry(copy, i, Entry { state, len: 0 });
    Ok(Answer::Done)
}

// Copy: the empty entry of sheet `to` becomes a copy of that of sheet `from`.
pub fn copy_sheet(copy: &mut [u8], from: u32, to: u32) -> Result<Answer, Refusal>
    requires { Accepted copy.old }
    ensures { out result copy.new ≡ local_out copy.old (Copy from to) }
{
    if 31 < from || 31 < to {
        return Err(Refusal::Range);
    }
    let i = from as usize;
    let j = to as usize;
    let old = workcopy::entry_at(copy, i);
    let occupied = workcopy::entry_at(copy, j).state != State::Empty;
    let missing = nothing_in(old.state);
    if missing {
        return Err(Refusal::Missing);
    }
    if occupied {
        return Err(Refusal::Occupied);
    }
    let state = copied_from(from, old.state);
    workcopy::copy_entry(copy, i, j, Entry { state, ..old });
    Ok(Answer::Done)
}

// Move: copy, then delete `from`.
pub fn move_sheet(copy: &mut [u8], from: u32, to: u32) -> Result<Answer, Refusal>
    requires { Accepted copy.old }
    ensures { out result copy.new ≡ local_out copy.old (Move from to) }
{
    copy_sheet(copy, from, to)?;
    delete(copy, from)
}
