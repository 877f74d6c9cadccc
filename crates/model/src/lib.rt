// The types of the engine's arguments and answers. What each means in the document's numbers and values is defined in specs/Types.antt.
#![tactic(auto)]

ghost use Rattle.std.specs.Prelude.{◌≡◌};
ghost use Rattle.model.specs.Types.{action_number, number_of, source_revision, source_sheet};

// The lines of "When the engine says no": the error of every call.
#[derive(Clone, Copy, PartialEq, Eq)]
pub enum Refusal {
    StoreLength,
    StoreCheck,
    StoreLayout,
    CopyLength,
    CopyLayout,
    Unfit,
    Range,
    Missing,
    Occupied,
    NothingPending,
    OutOfDate,
    Conflict,
    NoRoom,
    Tail,
    NotHolding,
    Released,
}

// The document's number of a refusal.
impl From<Refusal> for u32 {
    ghost from_gives = { λ r n. n ≡ number_of r };

    fn from(r: Refusal) -> u32 {
        match r {
            Refusal::StoreLength => 1,
            Refusal::StoreCheck => 2,
            Refusal::StoreLayout => 3,
            Refusal::CopyLength => 4,
            Refusal::CopyLayout => 5,
            Refusal::Unfit => 6,
            Refusal::Range => 7,
            Refusal::Missing => 8,
            Refusal::Occupied => 9,
            Refusal::NothingPending => 10,
            Refusal::OutOfDate => 11,
            Refusal::Conflict => 12,
            Refusal::NoRoom => 13,
            Refusal::Tail => 14,
            Refusal::NotHolding => 15,
            Refusal::Released => 16,
        }
    }
}

// Where a copied entry comes from: sheet and revision.
#[derive(Clone, Copy, PartialEq, Eq)]
pub struct Source {
    pub sheet: u32,
    pub revision: u32,
}

// The state of an entry of a working copy; normal and deleted carry their base revision.
#[derive(Clone, Copy, PartialEq, Eq)]
pub enum State {
    Empty,
    Normal(u32),
    Added,
    Deleted(u32),
    Copied(Source),
}

// An entry: its state, and how many bytes it has. The bytes stay in the working copy's buffer.
#[derive(Clone, Copy)]
pub struct Entry {
    pub state: State,
    pub len: usize,
}

// What a commit did to a sheet.
#[derive(Clone, Copy)]
pub enum Action {
    Nothing,
    Add,
    Change,
    Delete,
    Copy(Source),
}

// The action's number.
impl From<Action> for u32 {
    ghost from_gives = { λ a n. n ≡ action_number a };

    fn from(a: Action) -> u32 {
        match a {
            Action::Nothing => 0,
            Action::Add => 1,
            Action::Change => 2,
            Action::Delete => 3,
            Action::Copy(_) => 4,
        }
    }
}

impl Action {
    // The source of a copy, else zeros.
    pub fn source(self) -> Source
        ensures sheet { result.sheet ≡ source_sheet self }
        ensures revision { result.revision ≡ source_revision self }
    {
        match self {
            Action::Copy(s) => s,
            _ => Source {
                sheet: 0,
                revision: 0,
            },
        }
    }
}

// What log tells of a commit and a sheet; `changes` is the document's m.
#[derive(Clone, Copy)]
pub struct LogEntry {
    pub seat: u32,
    pub stamp: u32,
    pub changes: u32,
    pub action: Action,
}

// What status tells of a sheet: 0 to 8, and the last commit that names the sheet, 0 for none.
#[derive(Clone, Copy)]
pub struct Standing {
    pub status: u32,
    pub revision: u32,
}

// What a call answers that is not refused.
#[derive(Clone, Copy)]
pub enum Answer {
    Done,
    Stopped,
    Revision(u32),
    Status(Standing),
    Logged(LogEntry),
}

// A part of a buffer: its first byte, and its length.
#[derive(Clone, Copy)]
pub struct Span {
    pub start: usize,
    pub len: usize,
}

// What the companions of read and show answer, "the refusal, or buffer, place and length", where they are not refused; of a part of the store also the last commit that
// names the sheet, up to the revision read.
#[derive(Clone, Copy)]
pub enum Place {
    InStore(Span, u32),
    InCopy(Span),
}
