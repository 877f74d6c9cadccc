// A line of text as a call of the machine.
#![tactic(auto)]

ghost use Rattle.std.specs.Prelude.{◌/◌, ◌≤◌, ℕ, List, ◌≡◌, length, [], ◌∷◌, IfSome, MatchOption};
ghost use Rattle.block.specs.Write.{written};
ghost use Rattle.text.specs.Text.{HexFits, hexed, numbered, words};
ghost use Rattle.command.specs.Command.{CallFits, LineFits, call_in, four_of, fourth_of, key_of, line_turn, seated as seated_of, three_of, turn_in};

// What the first word of a line asks for.
#[derive(Clone, Copy)]
pub enum Key {
    Add,
    Set,
    Del,
    Cp,
    Mv,
    Put,
    Up,
    Get,
}

// A call of a seat. Add and Edit have a sheet and a number of bytes, which stand at the start of a buffer; Copy and Move two sheets; Commit a stamp; Update a revision.
#[derive(Clone, Copy)]
pub enum Call {
    Add(u32, usize),
    Edit(u32, usize),
    Delete(u32),
    Copy(u32, u32),
    Move(u32, u32),
    Commit(u32),
    Update(u32),
}

// What a line says: a seat and its call, or the revision and the sheet to get.
#[derive(Clone, Copy)]
pub enum Line {
    By(u32, Call),
    Get(u32, u32),
}

// The key that a word is, if it is one.
#[tactic(auto, using(crate::proofs::Laws::no_key), unfolding(crate::specs::Command::key_of, crate::specs::Command::is_word))]
fn keyword(w: &[u8]) -> Option<Key>
    ensures { result ≡ key_of w.now }
{
    match w {
        b"add" => Some(Key::Add),
        b"set" => Some(Key::Set),
        b"del" => Some(Key::Del),
        b"cp" => Some(Key::Cp),
        b"mv" => Some(Key::Mv),
        b"put" => Some(Key::Put),
        b"up" => Some(Key::Up),
        b"get" => Some(Key::Get),
        _ => None,
    }
}

// A call by seat 1 or 2; another seat has none.
fn seated(seat: u32, c: Call) -> Option<Line>
    ensures by_index { (l : List ℕ) → turn_in result l ≡ seated_of seat (call_in c l) }
    ensures by_index_2 { (m : ℕ) → CallFits c m → LineFits result m }
{
    if seat == 1 || seat == 2 {
        Some(Line::By(seat, c))
    } else {
        None
    }
}

// A line of three words.
fn three(k: Option<Key>, x: Option<u32>, y: Option<u32>) -> Option<Line>
    ensures by_index { (l : List ℕ) → turn_in result l ≡ three_of k (numbered x) (numbered y) }
    ensures by_index_2 { (m : ℕ) → LineFits result m }
{
    let (key, a, b) = (k?, x?, y?);
    match key {
        Key::Del => seated(a, Call::Delete(b)),
        Key::Put => seated(a, Call::Commit(b)),
        Key::Up => seated(a, Call::Update(b)),
        Key::Get => Some(Line::Get(a, b)),
        _ => None,
    }
}

// A line of four words, the last of them as a number and as HEX.
fn four(
    k: Option<Key>,
    x: Option<u32>,
    y: Option<u32>,
    z: Option<u32>,
    h: Option<usize>,
) -> Option<Line>
    ensures by_index { (l : List ℕ) → turn_in result l ≡ four_of k (numbered x) (numbered y) (numbered z) (hexed h l) }
    ensures by_index_2 { (m : ℕ) → HexFits h m → LineFits result m }
{
    let (key, a, b) = (k?, x?, y?);
    match key {
        Key::Add => seated(a, Call::Add(b, h?)),
        Key::Set => seated(a, Call::Edit(b, h?)),
        Key::Cp => seated(a, Call::Copy(b, z?)),
        Key::Mv => seated(a, Call::Move(b, z?)),
        _ => None,
    }
}

// The first word of a text, and the text after the space that ends it, if there is one.
#[tactic(auto, using(crate::proofs::Laws::word_steps))]
fn first_word(s: &[u8]) -> (&[u8], Option<&[u8]>)
    ensures words { MatchOption result.1 (words s.now ≡ result.0.now ∷ []) (λ r. words s.now ≡ result.0.now ∷ words r.now) }
    ensures first { length result.0.now ≤ length s.now }
    ensures rest { IfSome result.1 (λ r. length r.now ≤ length s.now) }
{
    let n = text::span(s, b' ');
    if n < s.len() {
        (&s[..n], Some(&s[n + 1..]))
    } else {
        (s, None)
    }
}

// What a line says. The bytes of a fourth and last word that is HEX are put at the start of `bytes`.
#[tactic(auto, unfolding(crate::specs::Command::turn_of, crate::specs::Command::fourth_of, block::specs::Write::written))]
pub fn parse(line: &[u8], bytes: &mut [u8]) -> Option<Line>
    requires { length line.now / 2 ≤ length bytes.old }
    ensures bytes_after { turn_in result bytes.new ≡ line_turn line.now }
    ensures line_fits { LineFits result (length bytes.old) }
    ensures bytes_after_2 { bytes.new ≡ written 0 (fourth_of (words line.now)) bytes.old }
{
    let (k, rest) = first_word(line);
    let (x, rest) = first_word(rest?);
    let (y, rest) = first_word(rest?);
    let key = keyword(k);
    let a = text::number(x);
    let b = text::number(y);
    let Some(rest) = rest else {
        return three(key, a, b);
    };
    let (z, None) = first_word(rest) else {
        return None;
    };
    let h = text::unhex(z, bytes);
    four(key, a, b, text::number(z), h)
}
