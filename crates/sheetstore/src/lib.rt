// The engine for callers in C: every answer as a struct of numbers, which specs/Numbers.antt defines from the answer of the meanings.
// Each promise is one equation with the call's meaning in crates/model/specs/Calls.antt, of the turn record in crates/turns/specs.
#![tactic(auto)]

ghost use Rattle.std.specs.Prelude.{◌≡◌};
ghost use Rattle.model.specs.Calls.{add_call, clear_call, clear_cut_call, commit_call, commit_cut_call, copy_call, create_copy, create_store, delete_call, edit_call, log_call, move_call, panel_place, read_place, release_call, revert_call, show_place, status_call, update_call};
ghost use Rattle.model.specs.Types.{answer_of, place_of};
ghost use Rattle.sheetstore.specs.Numbers.{answer_numbers, both, both_numbers, copy_numbers, cut_both, cut_both_numbers, cut_left, cut_left_numbers, cut_numbers, left, left_numbers, log_numbers, no_log, part_numbers, standing_numbers};
ghost use Rattle.sheetstore.specs.Replay.{ReplayNumbers};
ghost use Rattle.turns.specs.InTurn.{in_turn_call};
ghost use Rattle.turns.specs.Turned.{turned, turned_of};
ghost use Rattle.turns.specs.Turns.{Ask, Give, TakeBack, numbers_of, turn_call};

use model::{Answer, Place, Refusal};
use turns::{Held, TurnRecord};

// A refusal's number, or 0 and the revision, if the call answers one.
#[repr(C)]
#[derive(Clone, Copy)]
pub struct SheetsAnswer {
    pub refusal: u32,
    pub value: u32,
}

// Of a call that stops after n block writes: a refusal's number, or 0 and 1 if it stopped, or 0, 0 and the revision, if the usual call answers one.
#[repr(C)]
#[derive(Clone, Copy)]
pub struct SheetsCutAnswer {
    pub refusal: u32,
    pub stopped: u32,
    pub value: u32,
}

// A refusal's number, or 0 and a part: of the store (buffer 0) or of the working copy (buffer 1), its first byte and its length; of the store, the last commit that names the sheet.
#[repr(C)]
#[derive(Clone, Copy)]
pub struct SheetsPart {
    pub refusal: u32,
    pub buffer: u32,
    pub start: usize,
    pub len: usize,
    pub revision: u32,
}

// A refusal's number, or 0 and what status tells: 0 to 8, and the last commit that names the sheet, 0 for none.
#[repr(C)]
#[derive(Clone, Copy)]
pub struct SheetsStanding {
    pub refusal: u32,
    pub status: u32,
    pub revision: u32,
}

// A refusal's number, or 0 and what log tells: of a commit its seat, stamp and number of changes; of the sheet the action, 0 for nothing, and the source of a copy.
#[repr(C)]
#[derive(Clone, Copy)]
pub struct SheetsLog {
    pub refusal: u32,
    pub seat: u32,
    pub stamp: u32,
    pub changes: u32,
    pub action: u32,
    pub source_sheet: u32,
    pub source_revision: u32,
}

// The numbers of an answer. Of the calls that answer them none stops.
impl From<Result<Answer, Refusal>> for SheetsAnswer {
    ghost from_gives = { λ a n. n ≡ answer_numbers (answer_of a) };

    fn from(answer: Result<Answer, Refusal>) -> SheetsAnswer {
        match answer {
            Err(k) => SheetsAnswer {
                refusal: u32::from(k),
                value: 0,
            },
            Ok(Answer::Revision(value)) => SheetsAnswer { refusal: 0, value },
            Ok(_) => SheetsAnswer {
                refusal: 0,
                value: 0,
            },
        }
    }
}

// The numbers of the answer of a call that stops after n block writes.
impl From<Result<Answer, Refusal>> for SheetsCutAnswer {
    ghost from_gives = { λ a n. n ≡ cut_numbers (answer_of a) };

    fn from(answer: Result<Answer, Refusal>) -> SheetsCutAnswer {
        let (refusal, stopped, value) = match answer {
            Err(k) => (u32::from(k), 0, 0),
            Ok(Answer::Stopped) => (0, 1, 0),
            Ok(Answer::Revision(value)) => (0, 0, value),
            Ok(_) => (0, 0, 0),
        };
        SheetsCutAnswer {
            refusal,
            stopped,
            value,
        }
    }
}

// The numbers of a place.
impl From<Result<Place, Refusal>> for SheetsPart {
    ghost from_gives = { λ p n. n ≡ part_numbers (place_of p) };

    fn from(place: Result<Place, Refusal>) -> SheetsPart {
        match place {
            Err(k) => SheetsPart {
                refusal: u32::from(k),
                buffer: 0,
                start: 0,
                len: 0,
                revision: 0,
            },
            Ok(Place::InStore(p, revision)) => SheetsPart {
                refusal: 0,
                buffer: 0,
                start: p.start,
                len: p.len,
                revision,
            },
            Ok(Place::InCopy(p)) => SheetsPart {
                refusal: 0,
                buffer: 1,
                start: p.start,
                len: p.len,
                revision: 0,
            },
        }
    }
}

// The numbers of an answer of status.
impl From<Result<Answer, Refusal>> for SheetsStanding {
    ghost from_gives = { λ a n. n ≡ standing_numbers (answer_of a) };

    fn from(answer: Result<Answer, Refusal>) -> SheetsStanding {
        let (refusal, status, revision) = match answer {
            Err(k) => (u32::from(k), 0, 0),
            Ok(Answer::Status(s)) => (0, s.status, s.revision),
            Ok(_) => (0, 0, 0),
        };
        SheetsStanding {
            refusal,
            status,
            revision,
        }
    }
}

// No log: a refusal's number and zeros.
fn untold(refusal: u32) -> SheetsLog
    ensures { result ≡ no_log refusal }
{
    SheetsLog {
        refusal,
        seat: 0,
        stamp: 0,
        changes: 0,
        action: 0,
        source_sheet: 0,
        source_revision: 0,
    }
}

// The numbers of an answer of log.
impl From<Result<Answer, Refusal>> for SheetsLog {
    ghost from_gives = { λ a n. n ≡ log_numbers (answer_of a) };

    fn from(answer: Result<Answer, Refusal>) -> SheetsLog {
        match answer {
            Err(k) => untold(u32::from(k)),
            Ok(Answer::Logged(entry)) => {
                let source = entry.action.source();
                SheetsLog {
                    refusal: 0,
                    seat: entry.seat,
                    stamp: entry.stamp,
                    changes: entry.changes,
                    action: u32::from(entry.action),
                    source_sheet: source.sheet,
                    source_revision: source.revision,
                }
            }
            Ok(_) => untold(0),
        }
    }
}

// A fresh store.
#[unsafe(no_mangle)]
pub extern "C" fn sheets_create_store(store: &mut [u8]) -> SheetsAnswer
    ensures { left result store.new ≡ left_numbers (create_store store.old) }
{
    SheetsAnswer::from(engine::create_store(store))
}

// A fresh working copy of a seat.
#[unsafe(no_mangle)]
pub extern "C" fn sheets_create_copy(copy: &mut [u8], seat: u32) -> SheetsAnswer
    ensures { left result copy.new ≡ left_numbers (create_copy copy.old seat) }
{
    SheetsAnswer::from(engine::create_copy(copy, seat))
}

// Where the bytes of a sheet of a revision stand in the store, and the last commit up to it that names the sheet.
#[unsafe(no_mangle)]
pub extern "C" fn sheets_read(store: &[u8], revision: u32, sheet: u32) -> SheetsPart
    ensures { result ≡ part_numbers (read_place store.now revision sheet) }
{
    SheetsPart::from(engine::read_place(store, revision, sheet))
}

// What a panel shows of a sheet at a revision: where `sheets_read` finds it at the greatest released revision up to this one.
#[unsafe(no_mangle)]
pub extern "C" fn sheets_panel_read(store: &[u8], revision: u32, sheet: u32) -> SheetsPart
    ensures { result ≡ part_numbers (panel_place store.now revision sheet) }
{
    SheetsPart::from(engine::panel_place(store, revision, sheet))
}

// What a revision did to a sheet.
#[unsafe(no_mangle)]
pub extern "C" fn sheets_log(store: &[u8], revision: u32, sheet: u32) -> SheetsLog
    ensures { result ≡ log_numbers (log_call store.now revision sheet) }
{
    SheetsLog::from(engine::log(store, revision, sheet))
}

// The empty entry of a sheet becomes added, with these bytes.
#[unsafe(no_mangle)]
pub extern "C" fn sheets_add(
    store: &[u8],
    copy: &mut [u8],
    sheet: u32,
    bytes: &[u8],
) -> SheetsAnswer
    ensures { left result copy.new ≡ copy_numbers (add_call store.now copy.old sheet bytes.now) }
{
    SheetsAnswer::from(engine::add(store, copy, sheet, bytes))
}

// Other bytes in a normal, added or copied entry.
#[unsafe(no_mangle)]
pub extern "C" fn sheets_edit(
    store: &[u8],
    copy: &mut [u8],
    sheet: u32,
    bytes: &[u8],
) -> SheetsAnswer
    ensures { left result copy.new ≡ copy_numbers (edit_call store.now copy.old sheet bytes.now) }
{
    SheetsAnswer::from(engine::edit(store, copy, sheet, bytes))
}

// A normal entry becomes deleted, an added or copied one empty.
#[unsafe(no_mangle)]
pub extern "C" fn sheets_delete(store: &[u8], copy: &mut [u8], sheet: u32) -> SheetsAnswer
    ensures { left result copy.new ≡ copy_numbers (delete_call store.now copy.old sheet) }
{
    SheetsAnswer::from(engine::delete(store, copy, sheet))
}

// The empty entry of sheet `to` becomes a copy of that of sheet `from`.
#[unsafe(no_mangle)]
pub extern "C" fn sheets_copy(store: &[u8], copy: &mut [u8], from: u32, to: u32) -> SheetsAnswer
    ensures { left result copy.new ≡ copy_numbers (copy_call store.now copy.old from to) }
{
    SheetsAnswer::from(engine::copy_sheet(store, copy, from, to))
}

// Copy, then delete of sheet `from`.
#[unsafe(no_mangle)]
pub extern "C" fn sheets_move(store: &[u8], copy: &mut [u8], from: u32, to: u32) -> SheetsAnswer
    ensures { left result copy.new ≡ copy_numbers (move_call store.now copy.old from to) }
{
    SheetsAnswer::from(engine::move_sheet(store, copy, from, to))
}

// The chosen pending entries become the next revision; its number is the value.
#[unsafe(no_mangle)]
pub extern "C" fn sheets_commit(
    store: &mut [u8],
    copy: &mut [u8],
    stamp: u32,
    mask: u32,
) -> SheetsAnswer
    ensures { both result store.new copy.new ≡ both_numbers (commit_call store.old copy.old stamp mask) }
{
    SheetsAnswer::from(engine::commit(store, copy, stamp, mask))
}

// The same through the turn record, which the copy's seat must hold.
#[unsafe(no_mangle)]
pub extern "C" fn sheets_commit_in_turn(
    store: &mut [u8],
    copy: &mut [u8],
    turn: TurnRecord,
    stamp: u32,
    mask: u32,
) -> SheetsAnswer
    ensures { both result store.new copy.new ≡ both_numbers (in_turn_call store.old copy.old (numbers_of turn) stamp mask) }
{
    SheetsAnswer::from(engine::commit_in_turn(store, copy, turn, stamp, mask))
}

// The chosen entries come to a revision, unless one is a conflict.
#[unsafe(no_mangle)]
pub extern "C" fn sheets_update(
    store: &[u8],
    copy: &mut [u8],
    mask: u32,
    revision: u32,
) -> SheetsAnswer
    ensures { left result copy.new ≡ copy_numbers (update_call store.now copy.old mask revision) }
{
    SheetsAnswer::from(engine::update(store, copy, mask, revision))
}

// The chosen entries come back to their base.
#[unsafe(no_mangle)]
pub extern "C" fn sheets_revert(store: &[u8], copy: &mut [u8], mask: u32) -> SheetsAnswer
    ensures { left result copy.new ≡ copy_numbers (revert_call store.now copy.old mask) }
{
    SheetsAnswer::from(engine::revert(store, copy, mask))
}

// The blocks of the store's tail become zero blocks, from the highest down; the history stays.
#[unsafe(no_mangle)]
pub extern "C" fn sheets_clear(store: &mut [u8]) -> SheetsAnswer
    ensures { left result store.new ≡ left_numbers (clear_call store.old) }
{
    SheetsAnswer::from(engine::clear(store))
}

// The poolside panels may show this revision.
#[unsafe(no_mangle)]
pub extern "C" fn sheets_release(
    store: &mut [u8],
    revision: u32,
    seat: u32,
    stamp: u32,
) -> SheetsAnswer
    ensures { left result store.new ≡ left_numbers (release_call store.old revision seat stamp) }
{
    SheetsAnswer::from(engine::release(store, revision, seat, stamp))
}

// Commit, stopped after n block writes with the copy untouched; with n enough for all its writes it is `sheets_commit`.
#[unsafe(no_mangle)]
pub extern "C" fn sheets_commit_cut(
    store: &mut [u8],
    copy: &mut [u8],
    stamp: u32,
    mask: u32,
    n: u32,
) -> SheetsCutAnswer
    ensures { cut_both result store.new copy.new ≡ cut_both_numbers (commit_cut_call store.old copy.old stamp mask n) }
{
    SheetsCutAnswer::from(engine::commit_cut(store, copy, stamp, mask, n))
}

// Clear, stopped after n block writes; with n enough for all its writes it is `sheets_clear`.
#[unsafe(no_mangle)]
pub extern "C" fn sheets_clear_cut(store: &mut [u8], n: u32) -> SheetsCutAnswer
    ensures { cut_left result store.new ≡ cut_left_numbers (clear_cut_call store.old n) }
{
    SheetsCutAnswer::from(engine::clear_cut(store, n))
}

// Where the bytes that a seat sees of a sheet stand: its own in the working copy, else the last revision's in the store.
#[unsafe(no_mangle)]
pub extern "C" fn sheets_show<'a>(store: &'a [u8], copy: &'a [u8], sheet: u32) -> SheetsPart
    ensures { result ≡ part_numbers (show_place store.now copy.now sheet) }
{
    SheetsPart::from(engine::show_place(store, copy, sheet))
}

// The status of a sheet's entry, and the last commit that names the sheet.
#[unsafe(no_mangle)]
pub extern "C" fn sheets_status<'a>(store: &'a [u8], copy: &'a [u8], sheet: u32) -> SheetsStanding
    ensures { result ≡ standing_numbers (status_call store.now copy.now sheet) }
{
    SheetsStanding::from(engine::status(store, copy, sheet))
}

// The calls of a script on a store and four working copies side by side, and a record for each answer.
#[unsafe(no_mangle)]
pub extern "C" fn sheets_replay(
    script: &[u8],
    store: &mut [u8],
    copies: &mut [u8],
    answers: &mut [u8],
) -> SheetsAnswer
    ensures { ReplayNumbers script.now store.old copies.old answers.old result store.new copies.new answers.new }
{
    SheetsAnswer::from(replay::replay(script, store, copies, answers))
}

// A seat asks for the turn; the answer is who holds it then.
#[unsafe(no_mangle)]
pub extern "C" fn sheets_turn_ask(turn: &mut TurnRecord, seat: u32) -> Held
    ensures { turned turn.new result ≡ turned_of (turn_call (numbers_of turn.old) (Ask seat)) }
{
    let d = turns::asked(*turn, seat);
    *turn = d.turn;
    d.answer
}

// A seat gives the turn back, if it holds it; the answer is who holds it then.
#[unsafe(no_mangle)]
pub extern "C" fn sheets_turn_give(turn: &mut TurnRecord, seat: u32) -> Held
    ensures { turned turn.new result ≡ turned_of (turn_call (numbers_of turn.old) (Give seat)) }
{
    let d = turns::given_back(*turn, seat);
    *turn = d.turn;
    d.answer
}

// The planner takes the turn back from its holder, if there is one; the answer is who holds it then.
#[unsafe(no_mangle)]
pub extern "C" fn sheets_turn_take(turn: &mut TurnRecord) -> Held
    ensures { turned turn.new result ≡ turned_of (turn_call (numbers_of turn.old) TakeBack) }
{
    let d = turns::taken_back(*turn);
    *turn = d.turn;
    d.answer
}
