// The program of document 01: a text of commands, run on a fresh store of 32 blocks by seats 1 and 2, and the text of the answers.
#![tactic(auto)]

ghost use Rattle.std.specs.Prelude.{◌*◌, ◌+◌, ◌/◌, ◌≤◌, [], ◌++◌, ◌∷◌, ◌≡◌, length, take};
ghost use Rattle.block.specs.Write.{written};
ghost use Rattle.command.specs.Command.{CallFits, call_in, line_turn, turn as turn_of};
ghost use Rattle.model.specs.Calls.{after_turn, call as call_of, out as out_of, read_call, turn_on};
ghost use Rattle.model.specs.Types.{answer_of};
ghost use Rattle.text.specs.Text.{decimal_of, lines};
ghost use Rattle.program.specs.Buffers.{answered_on, pool, transcript_on};
ghost use Rattle.program.specs.Output.{output, sheet_text, text_of};

use command::{Call, Line};
use model::{Answer, Place, Refusal};

// ---- the answers as text: each is written from `at` on, and its length handed back

// A text.
fn say(out: &mut [u8], at: usize, text: &[u8]) -> usize
    ensures value { result ≡ length text.now }
    ensures out_after { out.new ≡ written at text.now out.old }
{
    block::put_bytes(out, at, text);
    text.len()
}

// A word and a number.
fn say_number(out: &mut [u8], at: usize, word: &[u8], n: u32) -> usize
    requires { (length word.now ≡ 3) × (at ≤ 4_000_000_000) }
    ensures value { result ≡ length (word.now ++ (decimal_of n ++ (10 ∷ []))) }
    ensures out_after { out.new ≡ written at (word.now ++ (decimal_of n ++ (10 ∷ []))) out.old }
    ensures upper_bound { result ≤ 14 }
{
    block::put_bytes(out, at, word);
    let p = at + 3;
    let k = text::put_decimal(out, p, n);
    block::put(out, p + k, 10);
    k + 4
}

// `ok` and bytes.
fn say_bytes(out: &mut [u8], at: usize, s: &[u8]) -> usize
    requires { at + 2 * length s.now ≤ 4_100_000_000 }
    ensures value { result ≡ length (sheet_text s.now) }
    ensures out_after { out.new ≡ written at (sheet_text s.now) out.old }
    ensures upper_bound { result ≤ 2 * length s.now + 5 }
{
    block::put_bytes(out, at, b"ok ");
    let p = at + 3;
    let k = text::put_hex(out, p, s);
    block::put(out, p + k, 10);
    k + 4
}

// The answer of a call.
fn say_answer(out: &mut [u8], at: usize, answer: Result<Answer, Refusal>) -> usize
    requires { at ≤ 4_000_000_000 }
    ensures value { result ≡ length (text_of (answer_of answer)) }
    ensures out_after { out.new ≡ written at (text_of (answer_of answer)) out.old }
    ensures upper_bound { result ≤ 14 }
{
    match answer {
        Err(k) => say_number(out, at, b"no ", u32::from(k)),
        Ok(Answer::Revision(n)) => say_number(out, at, b"ok ", n),
        Ok(_) => say(out, at, b"ok\n"),
    }
}

// ---- calls

// Get: a sheet of a revision, out of the store.
fn get(out: &mut [u8], at: usize, store: &[u8], revision: u32, sheet: u32) -> usize
    requires { (length store.now ≡ 16_384) × (at ≤ 4_000_000_000) }
    ensures value { result ≡ length (text_of (read_call store.now revision sheet)) }
    ensures out_after { out.new ≡ written at (text_of (read_call store.now revision sheet)) out.old }
    ensures upper_bound { result ≤ 32_800 }
{
    match engine::read_place(store, revision, sheet) {
        Err(k) => say_number(out, at, b"no ", u32::from(k)),
        Ok(Place::InStore(p, _)) => say_bytes(out, at, &store[p.start..p.start + p.len]),
        Ok(Place::InCopy(_)) => say_bytes(out, at, &store[0..0]),
    }
}

// A call on the store and the working copy of its seat.
fn act(call: Call, bytes: &[u8], store: &mut [u8], copy: &mut [u8]) -> Result<Answer, Refusal>
    requires { CallFits call (length bytes.now) }
    ensures { out_of (answer_of result) store.new copy.new ≡ call_of store.old copy.old (call_in call bytes.now) }
{
    match call {
        Call::Add(i, n) => engine::add(store, copy, i, &bytes[..n]),
        Call::Edit(i, n) => engine::edit(store, copy, i, &bytes[..n]),
        Call::Delete(i) => engine::delete(store, copy, i),
        Call::Copy(i, j) => engine::copy_sheet(store, copy, i, j),
        Call::Move(i, j) => engine::move_sheet(store, copy, i, j),
        Call::Commit(stamp) => engine::commit(store, copy, stamp, 4294967295),
        Call::Update(revision) => engine::update(store, copy, 4294967295, revision),
    }
}

// The same with the copies of seats 1 and 2.
fn turn(
    seat: u32,
    call: Call,
    bytes: &[u8],
    store: &mut [u8],
    one: &mut [u8],
    two: &mut [u8],
) -> Result<Answer, Refusal>
    requires { (1 ≤ seat) × (seat ≤ 2) × CallFits call (length bytes.now) }
    ensures result_value { answer_of result ≡ (turn_on (pool store.old one.old two.old) (turn_of seat (call_in call bytes.now))).says }
    ensures two_after { pool store.new one.new two.new ≡ after_turn (pool store.old one.old two.old) (turn_of seat (call_in call bytes.now)) }
{
    if seat == 1 {
        act(call, bytes, store, one)
    } else {
        act(call, bytes, store, two)
    }
}

// ---- lines

// One line: what it says is done, and the answer written.
fn answer_line(
    line: &[u8],
    bytes: &mut [u8],
    store: &mut [u8],
    one: &mut [u8],
    two: &mut [u8],
    out: &mut [u8],
    at: usize,
) -> usize
    requires { (length line.now / 2 ≤ length bytes.old) × (length store.old ≡ 16_384) × (at ≤ 4_000_000_000) }
    ensures value { result ≡ length (answered_on (pool store.old one.old two.old) (line_turn line.now)).0 }
    ensures out_after { out.new ≡ written at (answered_on (pool store.old one.old two.old) (line_turn line.now)).0 out.old }
    ensures two_after { pool store.new one.new two.new ≡ (answered_on (pool store.old one.old two.old) (line_turn line.now)).1 }
    ensures upper_bound { result ≤ 32_800 }
{
    match command::parse(line, bytes) {
        Some(Line::By(seat, call)) => {
            let answer = turn(seat, call, bytes, store, one, two);
            say_answer(out, at, answer)
        }
        Some(Line::Get(revision, sheet)) => get(out, at, store, revision, sheet),
        None => say(out, at, b"?\n"),
    }
}

// Every line, one after the other.
fn answer_lines(
    input: &[u8],
    bytes: &mut [u8],
    store: &mut [u8],
    one: &mut [u8],
    two: &mut [u8],
    out: &mut [u8],
) -> usize
    requires { (length input.now ≤ 4_096) × (length input.now / 2 ≤ length bytes.old) × (length store.old ≡ 16_384) }
    ensures value { result ≡ length (transcript_on (pool store.old one.old two.old) (lines input.now)) }
    ensures out_after { out.new ≡ written 0 (transcript_on (pool store.old one.old two.old) (lines input.now)) out.old }
{
    let mut at = 0;
    let mut to = 0;
    while at < input.len() {
        let rest = &input[at..];
        let n = text::span(rest, 10);
        to += answer_line(&rest[..n], bytes, store, one, two, out, to);
        at += n + 1;
    }
    to
}

// ---- the whole

// The lines of an input that is not too long, on a fresh store and fresh working copies.
fn run_lines(input: &[u8], out: &mut [u8]) -> usize
    requires { length input.now ≤ 4_096 }
    ensures value { result ≡ length (output input.now) }
    ensures out_after { out.new ≡ written 0 (output input.now) out.old }
{
    let mut bytes = text::zeros::<2048>();
    let mut store = text::zeros::<16384>();
    let mut one = text::zeros::<16896>();
    let mut two = text::zeros::<16896>();
    let _ = engine::create_store(&mut store);
    let _ = engine::create_copy(&mut one, 1);
    let _ = engine::create_copy(&mut two, 2);
    answer_lines(input, &mut bytes, &mut store, &mut one, &mut two, out)
}

// The output of an input, written from the start of `out` on, as far as it fits; the answer is its length. A buffer of 495,737 bytes holds every output.
pub fn run(input: &[u8], out: &mut [u8]) -> usize
    ensures value { result ≡ length (output input.now) }
    ensures out_after { out.new ≡ written 0 (output input.now) out.old }
    ensures upper_bound { result ≤ 495_737 }
    ensures out_after_2 { 495_737 ≤ length out.old → take result out.new ≡ output input.now }
{
    if 4096 < input.len() {
        say(out, 0, b"?\n")
    } else {
        run_lines(input, out)
    }
}
