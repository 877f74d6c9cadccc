// The rehearsal of a handover day (W8): four seats ask for the turn, hold it and commit, by the real calls on a store of 121 blocks.
// A day is defined in specs/Rehearsal.antt, the same with the real calls in specs/RehearsalCalls.antt, and the text in specs/Output.antt.
#![tactic(auto)]

ghost use Rattle.std.specs.Prelude.{◌+◌, ◌-◌, ◌<◌, ◌≤◌, cond, [], ◌++◌, ◌∷◌, map, ◌≡◌, ltb, length, take};
ghost use Rattle.std.proofs.Math.Option.{some};
ghost use Rattle.block.specs.Lists.{All};
ghost use Rattle.model.specs.Calls.{Buffers, call as call_of, out};
ghost use Rattle.model.specs.Run.{is_revision};
ghost use Rattle.model.specs.Types.{answer_of};
ghost use Rattle.text.specs.Text.{decimal_of, numbered as number_in, words};
ghost use Rattle.turns.specs.Turns.{holder as holder_of, is_in, numbers_of, queue_of};
ghost use Rattle.rehearsal.specs.Desk.{FiledOn, Planned, Sane, filed, filed_by, fresh_day, hall_in, pool};
ghost use Rattle.rehearsal.specs.Nine.{nine_as, small_of};
ghost use Rattle.rehearsal.specs.Outcomes.{outcome_of};
ghost use Rattle.rehearsal.specs.Output.{Fits, no_plan, numbered, plan_at, plan_text, ranged, rehearsal_output, report_in, reports_in, row_text, rows_text};
ghost use Rattle.rehearsal.specs.Printed.{Printed};
ghost use Rattle.rehearsal.specs.Rehearsal.{Sensible, day_of, in_range, is_sensible};
ghost use Rattle.rehearsal.specs.RehearsalCalls.{asking_by, closing_on, finishing_on, grant_on, one_ask, one_commit, one_wait, row_in, step_on, steps_on, tally_of, writing};

use model::{Answer, Refusal};
use turns::TurnRecord;

// A seat asks at every step that its period divides, and holds the turn for `holding` steps.
#[derive(Clone, Copy)]
pub struct Setting {
    pub period: u32,
    pub holding: u32,
}

// What is counted of a seat: commits, asks, the step of its last ask, and its longest completed wait.
#[derive(Clone, Copy, Default)]
pub struct Tally {
    pub commits: u32,
    pub asks: u32,
    pub asked: u32,
    pub longest: u32,
}

// The turn record, the step of the grant, and the four seats' tallies.
#[derive(Clone, Copy)]
struct Day {
    turn: TurnRecord,
    since: u32,
    rows: [Tally; 4],
}

// ---- one seat's tally

// The seat commits.
fn one_commit(r: Tally) -> Tally
    requires { r.commits < 4_294_967_295 }
    ensures { result ≡ one_commit r }
{
    Tally {
        commits: r.commits + 1,
        ..r
    }
}

// The seat asks.
fn one_ask(r: Tally, step: u32) -> Tally
    requires { r.asks < 4_294_967_295 }
    ensures { result ≡ one_ask step r }
{
    Tally {
        asks: r.asks + 1,
        asked: step,
        ..r
    }
}

// The seat's wait ends.
fn one_wait(r: Tally, step: u32) -> Tally
    ensures { result ≡ one_wait step r }
{
    let wait = step.saturating_sub(r.asked);
    Tally {
        longest: r.longest.max(wait),
        ..r
    }
}

// ---- the record

// Whether the seat holds the turn or waits.
fn in_line(t: TurnRecord, seat: u32) -> bool
    ensures { result ≡ is_in seat (queue_of (numbers_of t)) }
{
    let third = (t.third != 0) & (t.third == seat);
    let second = (t.second != 0) & ((t.second == seat) | third);
    let first = (t.first != 0) & ((t.first == seat) | second);
    (t.holder != 0) & ((t.holder == seat) | first)
}

// The seat, if it is one, got the turn at this step.
fn granted(d: Day, seat: u32, step: u32) -> Day
    requires { seat ≤ 4 }
    ensures { (b : Buffers) → hall_in b result ≡ grant_on step seat (hall_in b d) }
{
    if seat == 0 {
        return d;
    }
    let mut rows = d.rows;
    let i = seat as usize - 1;
    rows[i] = one_wait(rows[i], step);
    Day {
        since: step,
        rows,
        ..d
    }
}

// The seat asks, where its period divides the step, unless it waits or holds.
fn ask(d: Day, period: u32, seat: u32, step: u32) -> Day
    requires { (1 ≤ period) × (1 ≤ seat) × (seat ≤ 4) × ((row_in d.rows seat).asks < 4_294_967_295) }
    ensures { (b : Buffers) → hall_in b result ≡ asking_by period step seat (hall_in b d) }
{
    if step % period != 0 || in_line(d.turn, seat) {
        return d;
    }
    let asked = turns::asked(d.turn, seat);
    let i = seat as usize - 1;
    let mut rows = d.rows;
    rows[i] = one_ask(rows[i], step);
    let e = Day {
        turn: asked.turn,
        rows,
        ..d
    };
    if asked.answer.holder == seat {
        granted(e, seat, step)
    } else {
        e
    }
}

// ---- the calls of a holder whose time is over

// The seat writes the step's number on its own sheet: the first time it adds it, later it edits it.
fn write(store: &[u8], copy: &mut [u8], seat: u32, step: u32, row: Tally) -> Result<Answer, Refusal>
    requires { step < 65_536 }
    ensures { out (answer_of result) store.now copy.new ≡ call_of store.now copy.old (writing step seat row).call }
{
    let bytes = [(step % 256) as u8, (step / 256) as u8];
    if row.commits == 0 {
        engine::add(store, copy, seat, &bytes)
    } else {
        engine::edit(store, copy, seat, &bytes)
    }
}

// Whether an answer is a commit's.
fn got_through(answer: Result<Answer, Refusal>) -> bool
    ensures { result ≡ is_revision (answer_of answer) }
{
    matches!(answer, Ok(Answer::Revision(_)))
}

// The seat writes its sheet and commits it through the record; whether the commit got through.
fn file_one(
    store: &mut [u8],
    copy: &mut [u8],
    turn: TurnRecord,
    seat: u32,
    mask: u32,
    step: u32,
    row: Tally,
) -> bool
    requires { step < 65_536 }
    ensures { filed result store.new copy.new ≡ filed_by store.old copy.old (numbers_of turn) seat mask step row }
{
    let _ = write(store, copy, seat, step, row);
    let answer = engine::commit_in_turn(store, copy, turn, step, mask);
    got_through(answer)
}

// The same with the copy of the seat among the four.
fn file(
    store: &mut [u8],
    one: &mut [u8],
    two: &mut [u8],
    three: &mut [u8],
    four: &mut [u8],
    turn: TurnRecord,
    seat: u32,
    step: u32,
    row: Tally,
) -> bool
    requires { (1 ≤ seat) × (seat ≤ 4) × (step < 65_536) }
    ensures { FiledOn (pool store.old one.old two.old three.old four.old) (numbers_of turn) seat step row result (pool store.new one.new two.new three.new four.new) }
{
    match seat {
        1 => file_one(store, one, turn, 1, 2, step, row),
        2 => file_one(store, two, turn, 2, 4, step, row),
        3 => file_one(store, three, turn, 3, 8, step, row),
        _ => file_one(store, four, turn, 4, 16, step, row),
    }
}

// One commit more, if it got through.
fn counted(row: Tally, through: bool) -> Tally
    requires { row.commits < 4_294_967_295 }
    ensures { result ≡ cond through (one_commit row) row }
{
    if through { one_commit(row) } else { row }
}

// The holder writes its sheet, commits it and gives back, and the next one gets the turn.
fn close(
    d: Day,
    store: &mut [u8],
    one: &mut [u8],
    two: &mut [u8],
    three: &mut [u8],
    four: &mut [u8],
    step: u32,
) -> Day
    requires { Sane 4_000 (hall_in (pool store.old one.old two.old three.old four.old) d) × (d.turn.holder ≡ 0 → ⊥) × (step ≤ 60) }
    ensures { hall_in (pool store.new one.new two.new three.new four.new) result ≡ closing_on step d.turn.holder (hall_in (pool store.old one.old two.old three.old four.old) d) }
{
    let seat = d.turn.holder;
    let i = seat as usize - 1;
    let mut rows = d.rows;
    let row = rows[i];
    let through = file(store, one, two, three, four, d.turn, seat, step, row);
    rows[i] = counted(row, through);
    let back = turns::given_back(d.turn, seat);
    let e = Day {
        turn: back.turn,
        rows,
        ..d
    };
    granted(e, back.answer.holder, step)
}

// The holder, if there is one, is done when its time is over.
fn finish(
    d: Day,
    settings: [Setting; 4],
    store: &mut [u8],
    one: &mut [u8],
    two: &mut [u8],
    three: &mut [u8],
    four: &mut [u8],
    step: u32,
) -> Day
    requires { Sane 4_000 (hall_in (pool store.old one.old two.old three.old four.old) d) × Planned settings × (step ≤ 60) }
    ensures { hall_in (pool store.new one.new two.new three.new four.new) result ≡ finishing_on settings step (holder_of (queue_of (numbers_of d.turn))) (hall_in (pool store.old one.old two.old three.old four.old) d) }
{
    let seat = d.turn.holder;
    if seat == 0 || step < d.since + settings[seat as usize - 1].holding {
        return d;
    }
    close(d, store, one, two, three, four, step)
}

// ---- a step, and a day

// One step: the holder, then the four seats in order.
fn step_once(
    d: Day,
    settings: [Setting; 4],
    store: &mut [u8],
    one: &mut [u8],
    two: &mut [u8],
    three: &mut [u8],
    four: &mut [u8],
    step: u32,
) -> Day
    requires { Sane 3_000 (hall_in (pool store.old one.old two.old three.old four.old) d) × Planned settings × (step ≤ 60) }
    ensures { hall_in (pool store.new one.new two.new three.new four.new) result ≡ step_on settings step (hall_in (pool store.old one.old two.old three.old four.old) d) }
{
    let d0 = finish(d, settings, store, one, two, three, four, step);
    let d1 = ask(d0, settings[0].period, 1, step);
    let d2 = ask(d1, settings[1].period, 2, step);
    let d3 = ask(d2, settings[2].period, 3, step);
    ask(d3, settings[3].period, 4, step)
}

// Nobody holds the turn or waits, and nothing is counted.
fn fresh_day() -> Day
    ensures { result ≡ fresh_day }
{
    let free = TurnRecord {
        holder: 0,
        first: 0,
        second: 0,
        third: 0,
    };
    Day {
        turn: free,
        since: 0,
        rows: [Tally::default(); 4],
    }
}

// A day of so many steps.
fn run_day(
    settings: [Setting; 4],
    steps: u32,
    store: &mut [u8],
    one: &mut [u8],
    two: &mut [u8],
    three: &mut [u8],
    four: &mut [u8],
) -> Day
    requires { Planned settings × (steps ≤ 60) }
    ensures { hall_in (pool store.new one.new two.new three.new four.new) result ≡ steps_on settings 1 steps (hall_in (pool store.old one.old two.old three.old four.old) fresh_day) }
{
    let mut d = fresh_day();
    for step in 1..=steps {
        d = step_once(d, settings, store, one, two, three, four, step);
    }
    d
}

// The tallies of a day, with a fresh store and fresh working copies.
fn rehearsed(settings: [Setting; 4], steps: u32) -> [Tally; 4]
    requires { (length settings ≡ 4) × All Sensible settings × (steps ≤ 60) }
    ensures { result ≡ map tally_of (day_of settings steps).rows }
{
    let mut store = text::zeros::<61952>();
    let mut one = text::zeros::<16896>();
    let mut two = text::zeros::<16896>();
    let mut three = text::zeros::<16896>();
    let mut four = text::zeros::<16896>();
    let _ = engine::create_store(&mut store);
    let _ = engine::create_copy(&mut one, 1);
    let _ = engine::create_copy(&mut two, 2);
    let _ = engine::create_copy(&mut three, 3);
    let _ = engine::create_copy(&mut four, 4);
    let d = run_day(
        settings, steps, &mut store, &mut one, &mut two, &mut three, &mut four,
    );
    d.rows
}

// ---- the settings, lent

// From 1 to 60.
fn in_range(n: u32) -> bool
    ensures { result ≡ in_range n }
{
    (1..=60).contains(&n)
}

// Both numbers from 1 to 60.
fn sensible(x: Setting) -> bool
    ensures { result ≡ is_sensible x }
{
    in_range(x.period) && in_range(x.holding)
}

// The day of the settings of seats 1 to 4, a lent slice; none where they are not four, or a number is not in range.
pub fn rehearse(settings: &[Setting], steps: u32) -> Option<[Tally; 4]>
    ensures { result ≡ outcome_of settings.now steps }
{
    let &[a, b, c, d] = settings else {
        return None;
    };
    if in_range(steps) && sensible(a) && sensible(b) && sensible(c) && sensible(d) {
        Some(rehearsed([a, b, c, d], steps))
    } else {
        None
    }
}

// ---- the text: each is written from `at` on, and where it ends handed back

// A number and a byte behind it.
fn say_number(out: &mut [u8], at: usize, n: u32, last: u8) -> usize
    requires { at ≤ 4_000_000_000 }
    ensures printed { Printed at (decimal_of n ++ (last ∷ [])) out.old result out.new }
    ensures upper_bound { result ≤ at + 11 }
{
    let k = text::put_decimal(out, at, n);
    block::put(out, at + k, last);
    at + k + 1
}

// A seat's line: commits, asks, longest wait.
fn say_row(out: &mut [u8], at: usize, row: Tally) -> usize
    requires { at ≤ 3_999_999_900 }
    ensures printed { Printed at (row_text (report_in row)) out.old result out.new }
    ensures upper_bound { result ≤ at + 33 }
{
    let p = say_number(out, at, row.commits, 32);
    let q = say_number(out, p, row.asks, 32);
    say_number(out, q, row.longest, 10)
}

// The four lines.
fn say_rows(out: &mut [u8], rows: [Tally; 4]) -> usize
    ensures printed { Printed 0 (rows_text (reports_in rows)) out.old result out.new }
    ensures upper_bound { result ≤ 132 }
{
    let p = say_row(out, 0, rows[0]);
    let q = say_row(out, p, rows[1]);
    let e = say_row(out, q, rows[2]);
    say_row(out, e, rows[3])
}

// The day of the nine numbers: the steps, then each seat's period and holding time.
fn say_day(out: &mut [u8], n: [u32; 9]) -> usize
    requires { Fits (plan_at n) }
    ensures printed { Printed 0 (plan_text (some (plan_at n))) out.old result out.new }
    ensures upper_bound { result ≤ 132 }
{
    let [steps, p1, h1, p2, h2, p3, h3, p4, h4] = n;
    let settings = [
        Setting {
            period: p1,
            holding: h1,
        },
        Setting {
            period: p2,
            holding: h2,
        },
        Setting {
            period: p3,
            holding: h3,
        },
        Setting {
            period: p4,
            holding: h4,
        },
    ];
    match rehearse(&settings, steps) {
        Some(rows) => say_rows(out, rows),
        None => say_none(out),
    }
}

// No day.
fn say_none(out: &mut [u8]) -> usize
    ensures printed { Printed 0 no_plan out.old result out.new }
    ensures upper_bound { result ≤ 132 }
{
    block::put_bytes(out, 0, b"?\n");
    2
}

// ---- the line

// The number that a word is, from 1 to 60.
fn small(w: &[u8]) -> Option<u32>
    ensures { number_in result ≡ small_of w.now }
{
    text::number(w).filter(|&n| in_range(n))
}

// The words of the line, one after the other.
fn nine(line: &[u8]) -> Option<[u32; 9]>
    requires { length line.now ≤ 4_096 }
    ensures { nine_as result ≡ ranged (numbered (words line.now)) }
{
    let mut n = [0u32; 9];
    let mut k: usize = 0;
    let mut at: usize = 0;
    while at <= line.len() {
        let rest = &line[at..];
        let e = text::span(rest, 32);
        let x = small(&rest[..e])?;
        if 9 <= k {
            return None;
        }
        n[k] = x;
        k += 1;
        at += e + 1;
    }
    (k == 9).then_some(n)
}

// ---- the whole

// The output of an input, written from the start of `out` on, as far as it fits; the answer is its length. A buffer of 132 bytes holds every output.
pub fn run(input: &[u8], out: &mut [u8]) -> usize
    ensures printed { Printed 0 (rehearsal_output input.now) out.old result out.new }
    ensures upper_bound { result ≤ 132 }
    ensures out_after { 132 ≤ length out.old → take result out.new ≡ rehearsal_output input.now }
{
    if input.is_empty() || 4096 < input.len() {
        return say_none(out);
    }
    let e = text::span(input, 10);
    if e + 1 < input.len() {
        return say_none(out);
    }
    match nine(&input[..e]) {
        Some(n) => say_day(out, n),
        None => say_none(out),
    }
}
