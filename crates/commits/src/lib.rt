// The inner commit: its lines from the chosen entries of a working copy, and their writing. The store and the copy are known to be accepted, and it is known which
// entries differ from their base or source.
#![tactic(auto)]

ghost use Rattle.std.specs.Prelude.{◌<◌, ◌≤◌, ◌≡◌, length};
ghost use Rattle.commits.specs.Outcome.{Answered, Asked};
ghost use Rattle.commits.specs.Plan.{Planned, row_as, row_of, rows_from};

use model::Refusal;
use writer::{Action, Line};

// How an entry is written: its line, and the next block after it.
#[derive(Clone, Copy)]
struct Row {
    line: Line,
    next: usize,
}

// How the entry of a sheet is written, where block `next` is the next one; none where it has no change. By its state: a normal entry (1) is a change where it is modified,
// an added one (2) an add, a deleted one (3) a delete, and a copied one (4) a copy, which shares its source's block where the bytes are the same.
#[tactic(auto, unfolding(crate::specs::Plan::row_of, crate::specs::Plan::plan_as))]
fn row_of(copy: &[u8], changed: &[u8], places: &[u16], sheet: usize, next: usize) -> Option<Row>
    requires { (length copy.now ≡ 16896) × ((length changed.now ≡ 32) × ((length places.now ≡ 32) × ((sheet < 32) × (next < 65536)))) }
    ensures { result ≡ row_as (row_of copy.now changed.now places.now sheet) sheet next }
{
    let at = 512 * (sheet + 1);
    let own = next as u16;
    let flag = changed[sheet];
    let (action, block, next) = match copy[at + 1] {
        1 if flag != 0 => (Action::Change, own, next + 1),
        2 => (Action::Add, own, next + 1),
        3 => (Action::Delete, 0, next),
        4 if flag == 0 => (Action::Copy, places[sheet], next),
        4 => (Action::Copy, own, next + 1),
        _ => return None,
    };
    let (source, revision) = match action {
        Action::Copy => (copy[at + 6], block::get16(copy, at + 8)),
        _ => (0, 0),
    };
    let sheet = sheet as u8;
    let line = Line {
        sheet,
        action,
        block,
        source,
        revision,
    };
    Some(Row { line, next })
}

// The lines of a commit, how many there are, and the block that follows its content blocks.
#[derive(Clone, Copy)]
struct Plan {
    lines: [Line; 32],
    count: usize,
    next: usize,
}

// The lines of the chosen sheets, by rising sheet number.
fn make_plan(mask: u32, used: usize, copy: &[u8], changed: &[u8], places: &[u16]) -> Plan
    requires { (length copy.now ≡ 16896) × ((length changed.now ≡ 32) × ((length places.now ≡ 32) × (used ≤ 4096))) }
    ensures { Planned (rows_from (row_of copy.now changed.now places.now) mask 0 32) used result.lines result.count result.next }
{
    let mut lines = [Line::default(); 32];
    let mut count = 0;
    let mut next = used;
    let mut m = mask;
    'chosen: for _ in 0..masks::count(mask) {
        let sheet = m.trailing_zeros();
        m &= m - 1;
        if let Some(row) = row_of(copy, changed, places, sheet as usize, next) {
            lines[count] = row.line;
            count += 1;
            next = row.next;
        }
    }
    Plan { lines, count, next }
}

// The blocks in use afterwards; that it stopped.
#[derive(Clone, Copy)]
pub enum Outcome {
    Done(usize),
    Stopped,
}

// Commits the chosen entries and stops after n block writes: the number of blocks in use then, or refusal 10 or 13. `changed` is 0 for an entry whose bytes are its
// base's or its source's; `places` has the block that a copied entry's source uses.
pub fn commit_chosen(
    store: &mut [u8],
    n: usize,
    used: usize,
    revision: usize,
    seat: u8,
    stamp: u32,
    mask: u32,
    copy: &[u8],
    changed: &[u8],
    places: &[u16],
) -> Result<Outcome, Refusal>
    requires { Asked store.old copy.now used revision seat mask changed.now places.now }
    ensures { Answered store.old copy.now store.new stamp mask n result }
{
    let Plan { lines, count, next } = make_plan(mask, used, copy, changed, places);
    let lines = &lines[..count];
    if lines.is_empty() {
        return Err(Refusal::NothingPending);
    }
    if store.len() / 512 <= next {
        return Err(Refusal::NoRoom);
    }
    let end = writer::write_some(store, n, used, revision, seat, stamp, lines, copy);
    if end <= next {
        return Ok(Outcome::Stopped);
    }
    Ok(Outcome::Done(end))
}
