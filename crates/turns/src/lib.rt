// The turn record (W7): four seats take turns to commit. Every call takes the record by value and answers the record it leaves.
// Each promise is one equation with the call's meaning, `turn_call`, in specs/Turns.antt.
#![tactic(auto)]

ghost use Rattle.std.specs.Prelude.{◌||◌, not, true, ◌≡◌};
ghost use Rattle.model.specs.Codec.{pad_to};
ghost use Rattle.turns.specs.Turned.{held_of, turned, turned_of};
ghost use Rattle.turns.specs.Turns.{Ask, Give, TakeBack, above4, asked, held_by, in_form, is_seat, no_turn, numbers_of, passed_on, queue_of, seat_after0, seat_twice, turn_call};

// The holder, then those waiting, longest first; 0 where none.
#[repr(C)]
#[derive(Clone, Copy)]
pub struct TurnRecord {
    pub holder: u32,
    pub first: u32,
    pub second: u32,
    pub third: u32,
}

// A refusal's number, or 0 and the holder, 0 for none.
#[repr(C)]
#[derive(Clone, Copy)]
pub struct Held {
    pub refusal: u32,
    pub holder: u32,
}

// The record that a call leaves, and its answer.
#[repr(C)]
#[derive(Clone, Copy)]
pub struct Turned {
    pub turn: TurnRecord,
    pub answer: Held,
}

// Whether a record has no number above 4, no seat twice and no seat after a 0.
#[tactic(auto, unfolding(crate::specs::Turns::in_form))]
pub fn in_form(t: TurnRecord) -> bool
    ensures { result ≡ in_form (numbers_of t) }
{
    !(above4(t) || seat_twice(t) || seat_after0(t))
}

// A number above 4.
fn above4(t: TurnRecord) -> bool
    ensures { result ≡ above4 (numbers_of t) }
{
    t.holder > 4 || t.first > 4 || t.second > 4 || t.third > 4
}

// A seat that stands in a later place too.
fn seat_twice(t: TurnRecord) -> bool
    ensures { result ≡ seat_twice (numbers_of t) }
{
    (t.holder != 0 && [t.first, t.second, t.third].contains(&t.holder))
        || (t.first != 0 && [t.second, t.third].contains(&t.first))
        || (t.second != 0 && t.third == t.second)
}

// A seat behind a place where none stands.
fn seat_after0(t: TurnRecord) -> bool
    ensures { result ≡ seat_after0 (numbers_of t) }
{
    (t.holder == 0 && t.first != 0)
        || (t.first == 0 && t.second != 0)
        || (t.second == 0 && t.third != 0)
}

// Refusal 7: the seat isn't 1 to 4, or the record isn't in form.
fn wrong(t: TurnRecord, seat: u32) -> bool
    ensures { result ≡ (not (is_seat seat) || not (in_form (numbers_of t))) }
{
    !(1..=4).contains(&seat) || !in_form(t)
}

// Nothing changes: refusal 7.
fn refused(t: TurnRecord) -> Turned
    ensures { result ≡ turned t (held_of (no_turn 7)) }
{
    Turned {
        turn: t,
        answer: Held {
            refusal: 7,
            holder: 0,
        },
    }
}

// The record, and who holds the turn by it.
fn left(t: TurnRecord) -> Turned
    ensures { result ≡ turned t (held_of (held_by t.holder)) }
{
    Turned {
        turn: t,
        answer: Held {
            refusal: 0,
            holder: t.holder,
        },
    }
}

// The seat at the end of the line, unless it stands there.
fn joined(t: TurnRecord, seat: u32) -> TurnRecord
    requires { in_form (numbers_of t) ≡ true }
    ensures { numbers_of result ≡ pad_to 4 (asked seat (queue_of (numbers_of t))) }
{
    if [t.holder, t.first, t.second, t.third].contains(&seat) {
        t
    } else if t.holder == 0 {
        TurnRecord { holder: seat, ..t }
    } else if t.first == 0 {
        TurnRecord { first: seat, ..t }
    } else if t.second == 0 {
        TurnRecord { second: seat, ..t }
    } else if t.third == 0 {
        TurnRecord { third: seat, ..t }
    } else {
        t
    }
}

// The line without its first.
#[tactic(auto, using(crate::proofs::Cascade::passed_is))]
fn passed(t: TurnRecord) -> TurnRecord
    requires { in_form (numbers_of t) ≡ true }
    ensures { numbers_of result ≡ pad_to 4 (passed_on (queue_of (numbers_of t))) }
{
    TurnRecord {
        holder: t.first,
        first: t.second,
        second: t.third,
        third: 0,
    }
}

// A seat asks: it holds the turn if nobody does, else it joins the end of the line.
#[tactic(auto, unfolding(crate::specs::Turns::turn_call), using(crate::proofs::Calls::left_is))]
pub fn asked(t: TurnRecord, seat: u32) -> Turned
    ensures { result ≡ turned_of (turn_call (numbers_of t) (Ask seat)) }
{
    if wrong(t, seat) {
        return refused(t);
    }
    left(joined(t, seat))
}

// A seat gives back: if it holds the turn, the longest waiting seat gets it.
#[tactic(auto, unfolding(crate::specs::Turns::turn_call), using(crate::proofs::Calls::left_is, crate::proofs::Calls::gives_turn, crate::proofs::Calls::gives_nothing))]
pub fn given_back(t: TurnRecord, seat: u32) -> Turned
    ensures { result ≡ turned_of (turn_call (numbers_of t) (Give seat)) }
{
    if wrong(t, seat) {
        return refused(t);
    }
    if t.holder == seat {
        return left(passed(t));
    }
    left(t)
}

// The planner takes back: the longest waiting seat gets the turn.
#[tactic(auto, unfolding(crate::specs::Turns::turn_call), using(crate::proofs::Calls::left_is))]
pub fn taken_back(t: TurnRecord) -> Turned
    ensures { result ≡ turned_of (turn_call (numbers_of t) TakeBack) }
{
    if !in_form(t) {
        return refused(t);
    }
    left(passed(t))
}
