// The working copy: 33 blocks of 512 bytes, the seat's and one for each of 32 sheets. Its acceptance, its entries in and out, and create.
#![tactic(auto)]

ghost use Rattle.std.specs.Prelude.{◌+◌, ◌<◌, ◌≡◌, drop, get_or, length, set};
ghost use Rattle.block.specs.Buffer.{block_at};
ghost use Rattle.block.specs.Lists.{all};
ghost use Rattle.model.specs.Calls.{create_copy, fresh_copy};
ghost use Rattle.model.specs.Codec.{encode, parts};
ghost use Rattle.model.specs.Entry.{empty};
ghost use Rattle.model.specs.Types.{created_as, entry_of};
ghost use Rattle.model.specs.WorkCopy.{copy_bytes, copy_fields, entries_of, entry_block, seat_block, seat_of};
ghost use Rattle.workcopy.specs.Copy.{Accepted, CopyOk, Fit, PutOk, Reading, Small, accept_of, bytes_in, head_bytes, head_of, read_entry, state_in};
ghost use Rattle.workcopy.specs.Shape.{fields_ok, ok_block, shaped_block};

use model::{Answer, Entry, Refusal, Source, State};

// ---- acceptance

// Whether the fields are those that the state has.
fn fields_ok(state: u8, n: u16, base: u16, source: u8, revision: u16) -> bool
    ensures { result ≡ fields_ok state n base source revision }
{
    match state {
        0 => n == 0 && base == 0 && source == 0 && revision == 0,
        1 => 1 <= base && source == 0 && revision == 0,
        2 => base == 0 && source == 0 && revision == 0,
        3 => n == 0 && 1 <= base && source == 0 && revision == 0,
        4 => base == 0 && source <= 31 && 1 <= revision,
        _ => false,
    }
}

// Whether a block whose first byte is 5 has the shape of an entry's.
fn entry_shape(s: &[u8]) -> bool
    requires { (length s.now ≡ 512) × (get_or s.now 0 0 ≡ 5) }
    ensures { result ≡ shaped_block s.now }
{
    let n = block::get16(s, 2);
    n <= 480
        && s[7] == 0
        && block::is_zero(&s[10..16])
        && block::is_zero(&s[16 + usize::from(n)..508])
        && fields_ok(s[1], n, block::get16(s, 4), s[6], block::get16(s, 8))
}

// Whether a block passes as an entry's.
#[tactic(auto, unfolding(crate::specs::Shape::ok_block))]
fn entry_ok(s: &[u8]) -> bool
    requires { length s.now ≡ 512 }
    ensures { result ≡ ok_block 5 s.now }
{
    block::check(s) && s[0] == 5 && entry_shape(s)
}

// Whether a block whose first byte is 4 has the shape of the seat's.
fn seat_shape(s: &[u8]) -> bool
    requires { (length s.now ≡ 512) × (get_or s.now 0 0 ≡ 4) }
    ensures { result ≡ shaped_block s.now }
{
    (1..=4).contains(&s[1]) && block::is_zero(&s[2..508])
}

// Whether a block passes as the seat's.
#[tactic(auto, unfolding(crate::specs::Shape::ok_block))]
fn seat_ok(s: &[u8]) -> bool
    requires { length s.now ≡ 512 }
    ensures { result ≡ ok_block 4 s.now }
{
    block::check(s) && s[0] == 4 && seat_shape(s)
}

// Whether the 32 blocks after the seat's pass.
fn entries_ok(copy: &[u8]) -> bool
    requires { length copy.now ≡ 16896 }
    ensures { result ≡ all (ok_block 5) (parts 32 (drop 512 copy.now)) }
{
    copy[512..].chunks_exact(512).all(entry_ok)
}

// The seat of a working copy, or the refusal.
pub fn accept(copy: &[u8]) -> Result<u32, Refusal>
    ensures { result ≡ accept_of copy.now }
{
    if copy.len() != 16896 {
        return Err(Refusal::CopyLength);
    }
    if !seat_ok(&copy[..512]) || !entries_ok(copy) {
        return Err(Refusal::CopyLayout);
    }
    Ok(u32::from(copy[1]))
}

// ---- entries out

// The state with this number.
fn state_in(state: u8, base: u32, sheet: u32, revision: u32) -> State
    ensures { result ≡ state_in state base sheet revision }
{
    match state {
        0 => State::Empty,
        1 => State::Normal(base),
        2 => State::Added,
        3 => State::Deleted(base),
        _ => State::Copied(Source { sheet, revision }),
    }
}

// The entry that a block states.
fn read_entry(s: &[u8]) -> Entry
    ensures { result ≡ read_entry s.now }
{
    let base = u32::from(block::get16(s, 4));
    let sheet = u32::from(block::byte(s, 6));
    let revision = u32::from(block::get16(s, 8));
    Entry {
        state: state_in(block::byte(s, 1), base, sheet, revision),
        len: usize::from(block::get16(s, 2)),
    }
}

// The entry of sheet i.
pub fn entry_at(copy: &[u8], i: usize) -> Entry
    requires { Accepted copy.now × (i < 32) }
    ensures { Reading copy.now i result }
{
    let at = 512 * (i + 1);
    read_entry(&copy[at..at + 512])
}

// ---- entries in

// The first 16 bytes of an entry's block.
fn head_bytes(state: u8, len: usize, base: u32, source: u32, revision: u32) -> [u8; 16]
    requires { (len < 65536) × (base < 65536) × (source < 256) × (revision < 65536) }
    ensures { result ≡ head_bytes state len base source revision }
{
    let [n0, n1] = (len as u16).to_le_bytes();
    let [b0, b1] = (base as u16).to_le_bytes();
    let [r0, r1] = (revision as u16).to_le_bytes();
    [
        5,
        state,
        n0,
        n1,
        b0,
        b1,
        source as u8,
        0,
        r0,
        r1,
        0,
        0,
        0,
        0,
        0,
        0,
    ]
}

// The same, of an entry.
fn head_of(e: Entry) -> [u8; 16]
    requires { Small e.state e.len }
    ensures { result ≡ head_of e.state e.len }
{
    match e.state {
        State::Empty => head_bytes(0, e.len, 0, 0, 0),
        State::Normal(base) => head_bytes(1, e.len, base, 0, 0),
        State::Added => head_bytes(2, e.len, 0, 0, 0),
        State::Deleted(base) => head_bytes(3, e.len, base, 0, 0),
        State::Copied(s) => head_bytes(4, e.len, 0, s.sheet, s.revision),
    }
}

// The block of an entry whose bytes stand there already.
fn set_block(s: &mut [u8], e: Entry)
    requires { (length s.old ≡ 512) × Fit e (bytes_in e s.old) }
    ensures { s.new ≡ encode copy_fields (entry_block (entry_of e (bytes_in e s.old))) }
{
    let head = head_of(e);
    let end = 16 + e.len;
    block::put_bytes(s, 0, &head);
    block::clear(s, end, 508);
    block::seal(s);
}

// The block of an entry with these bytes.
fn put_block(s: &mut [u8], e: Entry, bytes: &[u8])
    requires { (length s.old ≡ 512) × Fit e bytes.now }
    ensures { s.new ≡ encode copy_fields (entry_block (entry_of e bytes.now)) }
{
    block::put_bytes(s, 16, bytes);
    set_block(s, e);
}

// The entry e with these bytes, at sheet i.
pub fn put_entry(copy: &mut [u8], i: usize, e: Entry, bytes: &[u8])
    requires { PutOk copy.old i e bytes.now }
    ensures { copy.new ≡ copy_bytes (seat_of copy.old) (set (entries_of copy.old) i (entry_of e bytes.now)) }
{
    let at = 512 * (i + 1);
    put_block(&mut copy[at..at + 512], e, bytes);
}

// The entry e with the bytes that stand at sheet i already.
pub fn set_entry(copy: &mut [u8], i: usize, e: Entry)
    requires { PutOk copy.old i e (bytes_in e (block_at copy.old (i + 1))) }
    ensures { copy.new ≡ copy_bytes (seat_of copy.old) (set (entries_of copy.old) i (entry_of e (bytes_in e (block_at copy.old (i + 1))))) }
{
    let at = 512 * (i + 1);
    set_block(&mut copy[at..at + 512], e);
}

// The entry e with the bytes of sheet `from`, at sheet `to`.
pub fn copy_entry(copy: &mut [u8], from: usize, to: usize, e: Entry)
    requires { CopyOk copy.old from to e }
    ensures { copy.new ≡ copy_bytes (seat_of copy.old) (set (entries_of copy.old) to (entry_of e (bytes_in e (block_at copy.old (from + 1))))) }
{
    let a = 512 * (from + 1) + 16;
    let b = 512 * (to + 1);
    copy.copy_within(a..a + e.len, b + 16);
    set_block(&mut copy[b..b + 512], e);
}

// ---- create

// The seat's block.
fn put_seat(s: &mut [u8], seat: u8)
    requires { length s.old ≡ 512 }
    ensures { s.new ≡ encode copy_fields (seat_block seat) }
{
    s[0] = 4;
    s[1] = seat;
    block::clear(s, 2, 508);
    block::seal(s);
}

// An empty entry's block.
fn put_empty(s: &mut [u8])
    requires { length s.old ≡ 512 }
    ensures { s.new ≡ encode copy_fields (entry_block empty) }
{
    let state = State::Empty;
    set_block(s, Entry { state, len: 0 });
}

// A fresh copy: its seat and 32 empty entries.
fn fresh(copy: &mut [u8], seat: u8)
    requires { length copy.old ≡ 16896 }
    ensures { copy.new ≡ fresh_copy seat }
{
    put_seat(&mut copy[..512], seat);
    for next in 1..33 {
        let at = 512 * next;
        put_empty(&mut copy[at..at + 512]);
    }
}

// Create: a fresh copy, or the refusal.
pub fn create_copy(copy: &mut [u8], seat: u32) -> Result<Answer, Refusal>
    ensures { created_as result copy.new ≡ create_copy copy.old seat }
{
    if copy.len() != 16896 {
        return Err(Refusal::CopyLength);
    }
    if !(1..=4).contains(&seat) {
        return Err(Refusal::Range);
    }
    fresh(copy, seat as u8);
    Ok(Answer::Done)
}
