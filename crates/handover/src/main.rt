// The twelve handover cases of document 01, run on the engine: each case and its result, a line each. The file stdout has the document's table.
#![tactic(auto)]

use model::{Answer, Place, Refusal};
use store::Header;

// ---- writing

fn say(text: &[u8]) {
    io::write_all(1, text);
}

fn say_number(n: u64) {
    io::print_decimal(1, n);
}

// What a call answered: `done`, `stopped`, or the number of the refusal.
fn say_answer(answer: Result<Answer, Refusal>) {
    match answer {
        Err(k) => say_number(u64::from(u32::from(k))),
        Ok(Answer::Stopped) => say(b"stopped"),
        Ok(_) => say(b"done"),
    }
}

// What reading found: `present` and the length, or the number of the refusal.
fn say_place(place: Result<Place, Refusal>) {
    match place {
        Err(k) => say_number(u64::from(u32::from(k))),
        Ok(Place::InStore(p, _) | Place::InCopy(p)) => {
            say(b"present, length ");
            say_number(p.len as u64);
        }
    }
}

// Two answers, and the end of the line.
fn say_both(first: Result<Answer, Refusal>, second: Result<Answer, Refusal>) {
    say_answer(first);
    say(b"; ");
    say_answer(second);
    say(b"\n");
}

// The two sums that stand at these places.
fn say_sums(store: &[u8], a: usize, b: usize) {
    say(b"a ");
    say_number(u64::from(block::get16(store, a)));
    say(b", b ");
    say_number(u64::from(block::get16(store, b)));
    say(b"\n");
}

// How many more blocks are used, if both stores are open.
fn say_growth(before: Result<Header, Refusal>, after: Result<Header, Refusal>) {
    let (Ok(x), Ok(y)) = (before, after) else {
        return;
    };
    say(b"U grows by ");
    say_number(y.used.saturating_sub(x.used) as u64);
}

// ---- the cases

// The case input: seat 2 adds byte 65 as sheet 5 and commits with stamp 7.
fn case_input(store: &mut [u8], copy: &mut [u8]) -> Result<(), Refusal> {
    engine::create_store(store)?;
    engine::create_copy(copy, 2)?;
    engine::add(store, copy, 5, b"A")?;
    engine::commit(store, copy, 7, 4294967295)?;
    Ok(())
}

fn cases_1_to_3(store: &mut [u8], copy: &mut [u8]) -> Result<(), Refusal> {
    case_input(store, copy)?;
    say(b"1: label block: ");
    say_sums(store, 508, 510);
    say(b"2: content of case input (byte 65, revision 1): ");
    say_sums(store, 1020, 1022);
    say(b"3: its commit block (content in block 1): ");
    say_sums(store, 1532, 1534);
    Ok(())
}

fn case_4(store: &mut [u8]) -> Result<(), Refusal> {
    engine::create_store(store)?;
    say(b"4: fresh store of 2 blocks, read (0, 0): ");
    say_place(engine::read_place(store, 0, 0));
    say(b"\n");
    Ok(())
}

fn case_5(store: &mut [u8], copy: &mut [u8]) -> Result<(), Refusal> {
    engine::create_store(store)?;
    engine::create_copy(copy, 1)?;
    engine::add(store, copy, 5, b"")?;
    engine::commit(store, copy, 7, 4294967295)?;
    say(b"5: empty sheet added, committed: ");
    say_place(engine::read_place(store, 1, 5));
    say(b"\n");
    Ok(())
}

fn case_6(store: &mut [u8], copy: &mut [u8], longest: &[u8], longer: &[u8]) -> Result<(), Refusal> {
    engine::create_store(store)?;
    engine::create_copy(copy, 1)?;
    say(b"6: add of 480 bytes; of 481: ");
    let first = engine::add(store, copy, 5, longest);
    let second = engine::add(store, copy, 6, longer);
    say_both(first, second);
    Ok(())
}

fn case_7(two: &mut [u8], three: &mut [u8], copy: &mut [u8]) -> Result<(), Refusal> {
    engine::create_store(two)?;
    engine::create_store(three)?;
    engine::create_copy(copy, 1)?;
    engine::add(two, copy, 5, b"A")?;
    say(b"7: commit one add, N = 2; N = 3: ");
    let first = engine::commit(two, copy, 7, 4294967295);
    let second = engine::commit(three, copy, 7, 4294967295);
    say_both(first, second);
    Ok(())
}

fn case_8(store: &mut [u8], copy: &mut [u8]) -> Result<(), Refusal> {
    case_input(store, copy)?;
    let before = store::open(store);
    engine::delete(store, copy, 5)?;
    engine::commit(store, copy, 8, 4294967295)?;
    say(b"8: commit of one delete: ");
    say_growth(before, store::open(store));
    say(b"\n");
    Ok(())
}

// Seats 1 and 2 edit sheet 5 differently at base 1.
fn both_edit(store: &[u8], one: &mut [u8], two: &mut [u8]) -> Result<(), Refusal> {
    engine::create_copy(one, 1)?;
    engine::update(store, one, 4294967295, 1)?;
    engine::edit(store, one, 5, b"B")?;
    engine::edit(store, two, 5, b"C")?;
    Ok(())
}

fn case_9(store: &mut [u8], one: &mut [u8], two: &mut [u8]) -> Result<(), Refusal> {
    case_input(store, two)?;
    both_edit(store, one, two)?;
    engine::commit(store, one, 8, 4294967295)?;
    say(
        b"9: seats 1, 2 edit sheet 5 at base 1 differently, 1 commits; 2 commits; 2 updates to 2: ",
    );
    let first = engine::commit(store, two, 9, 4294967295);
    let second = engine::update(store, two, 4294967295, 2);
    say_both(first, second);
    Ok(())
}

fn say_older(place: Result<Place, Refusal>) {
    match place {
        Ok(Place::InStore(_, _)) => say(b"; older revision still has 5\n"),
        _ => say(b"; older revision lacks 5\n"),
    }
}

fn case_10(store: &mut [u8], copy: &mut [u8]) -> Result<(), Refusal> {
    case_input(store, copy)?;
    let before = store::open(store);
    engine::move_sheet(store, copy, 5, 6)?;
    engine::commit(store, copy, 8, 4294967295)?;
    say(b"10: unmodified move 5 to 6: ");
    say_growth(before, store::open(store));
    say_older(engine::read_place(store, 1, 5));
    Ok(())
}

fn case_11(store: &mut [u8], copy: &mut [u8]) -> Result<(), Refusal> {
    case_input(store, copy)?;
    say(b"11: copy 5 to 5, normal; empty: ");
    let first = engine::copy_sheet(store, copy, 5, 5);
    engine::create_copy(copy, 2)?;
    let second = engine::copy_sheet(store, copy, 5, 5);
    say_both(first, second);
    Ok(())
}

fn case_12(store: &mut [u8], copy: &mut [u8]) -> Result<(), Refusal> {
    case_input(store, copy)?;
    say(b"12: mask 0; nothing chosen pending: ");
    let first = engine::commit(store, copy, 8, 0);
    let second = engine::commit(store, copy, 8, 4294967295);
    say_both(first, second);
    Ok(())
}

// Every case in order. None of the calls before a result is refused.
fn cases() -> Result<(), Refusal> {
    let mut two = [0u8; 1024];
    let mut three = [0u8; 1536];
    let mut store = [0u8; 8192];
    let mut one = [0u8; 16896];
    let mut other = [0u8; 16896];
    let longest = [65u8; 480];
    let longer = [65u8; 481];
    cases_1_to_3(&mut store, &mut other)?;
    case_4(&mut two)?;
    case_5(&mut store, &mut one)?;
    case_6(&mut store, &mut one, &longest, &longer)?;
    case_7(&mut two, &mut three, &mut one)?;
    case_8(&mut store, &mut other)?;
    case_9(&mut store, &mut one, &mut other)?;
    case_10(&mut store, &mut other)?;
    case_11(&mut store, &mut other)?;
    case_12(&mut store, &mut other)?;
    Ok(())
}

fn main() {
    if let Err(k) = cases() {
        say_number(u64::from(u32::from(k)));
    }
}
