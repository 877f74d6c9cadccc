// A list of calls in bytes, run on one store and four working copies side by side: the five buffers are checked once, and then the inner functions run only.
// What a script and a record of an answer are is in specs/Script.antt and specs/Records.antt.
#![tactic(auto)]

ghost use Rattle.std.specs.Prelude.{◌<◌, ◌≡◌, length};
ghost use Rattle.inner.specs.Performs.{told};
ghost use Rattle.inner.specs.declared.Reply.TheVariants.{At};
ghost use Rattle.model.specs.Machine.{bytes as shown};
ghost use Rattle.model.specs.Refusals.{first_of};
ghost use Rattle.model.specs.Types.{answer_of};
ghost use Rattle.model.specs.declared.Answer.TheVariants.{Logged, Status};
ghost use Rattle.replay.specs.Desk.{desk, ran_from};
ghost use Rattle.replay.specs.Faults.{Checks, fault_of};
ghost use Rattle.replay.specs.Records.{record_of, zeros};
ghost use Rattle.replay.specs.Replay.{Replays, copy_lines, lines_from};
ghost use Rattle.replay.specs.Script.{call_in, kind_ok, record_ok, script_ok, turns_of};
ghost use Rattle.replay.specs.Steps.{Reachable, Running, Stepped, Stepping, Turned, Turning};
ghost use Rattle.store.specs.Opened.{open_of};

use entries::View;
use inner::{Call, Reply};
use model::{Answer, LogEntry, Place, Refusal, Standing};
use store::Header;

// ---- the script

// Whether there is a call of this kind: 1 to 15, 20 or 21.
fn kind_ok(kind: u8) -> bool
    ensures { result ≡ kind_ok kind }
{
    matches!(kind, 1..=15 | 20 | 21)
}

// Whether a record has a kind and a seat, and its bytes end within it.
#[tactic(auto, unfolding(crate::specs::Script::record_ok))]
fn record_ok(rec: &[u8]) -> bool
    ensures { result ≡ record_ok rec.now }
{
    kind_ok(block::byte(rec, 0))
        && matches!(block::byte(rec, 1), 1..=4)
        && block::get16(rec, 2) <= 496
}

// Whether the script is whole records, each of them good.
fn script_ok(script: &[u8]) -> bool
    ensures { result ≡ script_ok script.now }
{
    script.len() % 512 == 0 && script.chunks_exact(512).all(record_ok)
}

// The call of a record.
#[tactic(auto, unfolding(crate::specs::Script::call_in))]
fn decode(rec: &[u8]) -> Call
    ensures { result ≡ call_in rec.now }
{
    let a = block::get32(rec, 4);
    let b = block::get32(rec, 8);
    let c = block::get32(rec, 12);
    match block::byte(rec, 0) {
        1 => Call::Add(a),
        2 => Call::Edit(a),
        3 => Call::Delete(a),
        4 => Call::Copy(a, b),
        5 => Call::Move(a, b),
        6 => Call::Commit(a, b),
        7 => Call::Update(a, b),
        8 => Call::Revert(a),
        9 => Call::Read(a, b),
        10 => Call::Show(a),
        11 => Call::Status(a),
        12 => Call::Log(a, b),
        13 => Call::Clear,
        14 => Call::CommitCut(a, b, c),
        15 => Call::ClearCut(a),
        20 => Call::Release(a, c, b),
        _ => Call::Panel(a, b),
    }
}

// ---- the records of the answers

// The record of what log tells, in zeros.
fn put_log(rec: &mut [u8], entry: LogEntry)
    requires { rec.old ≡ zeros }
    ensures { rec.new ≡ record_of (answer_of (Ok (Logged entry))) }
{
    let source = entry.action.source();
    block::put32(rec, 4, entry.seat);
    block::put32(rec, 8, entry.stamp);
    block::put32(rec, 12, entry.changes);
    block::put32(rec, 16, u32::from(entry.action));
    block::put32(rec, 20, source.sheet);
    block::put32(rec, 24, source.revision);
}

// The record of a status, in zeros.
fn put_standing(rec: &mut [u8], standing: Standing)
    requires { rec.old ≡ zeros }
    ensures { rec.new ≡ record_of (answer_of (Ok (Status standing))) }
{
    block::put32(rec, 4, standing.status);
    block::put32(rec, 8, standing.revision);
}

// The record of an answer, in zeros.
fn put_answer(rec: &mut [u8], answer: Result<Answer, Refusal>)
    requires { rec.old ≡ zeros }
    ensures { rec.new ≡ record_of (answer_of answer) }
{
    match answer {
        Err(k) => block::put32(rec, 0, u32::from(k)),
        Ok(Answer::Done) => {}
        Ok(Answer::Revision(n)) => block::put32(rec, 4, n),
        Ok(Answer::Status(standing)) => put_standing(rec, standing),
        Ok(Answer::Logged(entry)) => put_log(rec, entry),
        Ok(Answer::Stopped) => block::put32(rec, 8, 1),
    }
}

// The record of bytes, in zeros, with the last commit that names their sheet; 0 for none.
fn put_part(rec: &mut [u8], bytes: &[u8], revision: u32)
    requires { (rec.old ≡ zeros) × (length bytes.now < 4_294_967_296) }
    ensures { rec.new ≡ record_of (shown bytes.now revision) }
{
    block::put32(rec, 8, revision);
    block::put32(rec, 28, bytes.len() as u32);
    block::put_bytes(rec, 32, bytes);
}

// The record of the bytes at a place, or of the refusal, in zeros.
fn put_place<'a>(rec: &mut [u8], store: &'a [u8], copy: &'a [u8], place: Result<Place, Refusal>)
    requires { (rec.old ≡ zeros) × Reachable store.now copy.now (At place) }
    ensures { rec.new ≡ record_of (told store.now copy.now (At place)) }
{
    match place {
        Err(k) => block::put32(rec, 0, u32::from(k)),
        Ok(Place::InStore(p, revision)) => {
            put_part(rec, &store[p.start..p.start + p.len], revision);
        }
        Ok(Place::InCopy(p)) => put_part(rec, &copy[p.start..p.start + p.len], 0),
    }
}

// The record of a reply.
fn put_reply<'a>(rec: &mut [u8], store: &'a [u8], copy: &'a [u8], reply: Reply)
    requires { (length rec.old ≡ 512) × Reachable store.now copy.now reply }
    ensures { rec.new ≡ record_of (told store.now copy.now reply) }
{
    block::clear(rec, 0, 512);
    match reply {
        Reply::Said(a) => put_answer(rec, a),
        Reply::At(p) => put_place(rec, store, copy, p),
    }
}

// ---- one call

// The call of a record, on the store and its seat's copy.
fn step(rec: &[u8], store: &mut [u8], copy: &mut [u8], v: View, answer: &mut [u8]) -> Header
    requires { Stepping rec.now store.old copy.old v answer.old }
    ensures { Stepped rec.now store.old copy.old v result store.new copy.new answer.new }
{
    let call = decode(rec);
    let end = 16 + block::get16(rec, 2) as usize;
    let done = inner::perform(store, copy, v, call, &rec[16..end]);
    let reply = done.reply;
    put_reply(answer, store, copy, reply);
    Header {
        last: done.last,
        used: done.used,
    }
}

// The call of a record, on the store and the copy of its seat among the four.
fn turn(rec: &[u8], store: &mut [u8], copies: &mut [u8], h: Header, answer: &mut [u8]) -> Header
    requires { Turning rec.now store.old copies.old h answer.old }
    ensures { Turned rec.now store.old copies.old result store.new copies.new answer.new }
{
    let seat = block::byte(rec, 1);
    let a = 16896 * (seat as usize - 1);
    let v = View {
        n: store.len() / 512,
        used: h.used,
        last: h.last,
        seat: seat as u32,
    };
    step(rec, store, &mut copies[a..a + 16896], v, answer)
}

// Every call of the script in order.
fn run_all(script: &[u8], store: &mut [u8], copies: &mut [u8], answers: &mut [u8], mut h: Header)
    requires { Running script.now store.old copies.old answers.old h }
    ensures { desk store.new copies.new answers.new
        ≡ ran_from 0 (turns_of script.now) (desk store.old copies.old answers.old) }
{
    for i in 0..script.len() / 512 {
        let a = 512 * i;
        h = turn(
            &script[a..a + 512],
            store,
            copies,
            h,
            &mut answers[a..a + 512],
        );
    }
}

// ---- the check

// The refusal of the copy of a seat, where the store is open.
fn copy_fault<'a>(store: &'a [u8], copy: &'a [u8], h: Header, seat: u32) -> Result<(), Refusal>
    requires { open_of store.now ≡ Ok h }
    ensures { fault_of result ≡ first_of (copy_lines store.now copy.now seat) }
{
    let v = entries::check_copy(store, copy, h)?;
    if v.seat != seat {
        return Err(Refusal::Range);
    }
    Ok(())
}

// The refusal of the four copies, where the store is open.
fn copies_fault<'a>(store: &'a [u8], copies: &'a [u8], h: Header) -> Result<(), Refusal>
    requires { (open_of store.now ≡ Ok h) × (length copies.now ≡ 67_584) }
    ensures { fault_of result ≡ first_of (lines_from store.now copies.now 0 4) }
{
    for (k, copy) in copies.chunks_exact(16896).enumerate() {
        copy_fault(store, copy, h, k as u32 + 1)?;
    }
    Ok(())
}

// The first refusal, or the store's numbers.
fn check<'a>(
    script: &'a [u8],
    store: &'a [u8],
    copies: &'a [u8],
    answers: &'a [u8],
) -> Result<Header, Refusal>
    ensures { Checks script.now store.now copies.now answers.now result }
{
    let h = store::open(store)?;
    if copies.len() != 67584 {
        return Err(Refusal::CopyLength);
    }
    copies_fault(store, copies, h)?;
    if !script_ok(script) || answers.len() < script.len() {
        return Err(Refusal::Range);
    }
    Ok(h)
}

// The calls of a script on a store and four copies side by side, and a record for each answer.
pub fn replay(
    script: &[u8],
    store: &mut [u8],
    copies: &mut [u8],
    answers: &mut [u8],
) -> Result<Answer, Refusal>
    ensures { Replays script.now store.old copies.old answers.old result store.new copies.new answers.new }
{
    let h = check(script, store, copies, answers)?;
    run_all(script, store, copies, answers, h);
    Ok(Answer::Done)
}
