// Text in and out: spans, decimal numbers, HEX. What does not fit a buffer is not written.
#![tactic(auto)]

ghost use Rattle.std.specs.Prelude.{◌*◌, ◌+◌, ◌/◌, ◌<◌, ◌≤◌, true, ◌≡◌, length, is_some, IfSome, replicate};
ghost use Rattle.std.specs.List.{list_all};
ghost use Rattle.block.specs.Lists.{all};
ghost use Rattle.block.specs.Write.{written};
ghost use Rattle.text.specs.Text.{HexFits, are_pairs, bytes_or, decimal_of, digit_of, glyph_of, hex_of, hex_pairs, hex_text, hexed, is_digit, number_of, numbered, pairs_of, span_of, value_of};

// ---- reading

// How many bytes stand before the first b: all of them where there is none.
pub fn span(s: &[u8], b: u8) -> usize
    ensures { (result ≡ span_of b s.now) × (result ≤ length s.now) }
{
    s.iter().position(|&x| x == b).unwrap_or(s.len())
}

// The digit that a byte is, if it is one.
#[tactic(auto, unfolding(crate::specs::Text::digit_of))]
fn digit(x: u8) -> Option<u8>
    ensures some { is_some result ≡ is_digit x }
    ensures value { IfSome result (λ d. d ≡ digit_of x) }
{
    match x {
        b'0'..=b'9' => Some(x - b'0'),
        b'a'..=b'f' => Some(x - b'a' + 10),
        _ => None,
    }
}

// The number that a word of decimal digits spells, if it has 32 bits.
#[tactic(auto, using(crate::proofs::Laws::value_steps))]
fn value(w: &[u8]) -> Option<u32>
    ensures { numbered result ≡ value_of 0 w.now }
{
    let mut n: u32 = 0;
    for &x in w {
        let d = digit(x)?;
        if 10 <= d {
            return None;
        }
        n = n.checked_mul(10)?.checked_add(u32::from(d))?;
    }
    Some(n)
}

// The number that a word is: no leading zero, and 32 bits.
#[tactic(auto, unfolding(crate::specs::Text::number_of))]
pub fn number(w: &[u8]) -> Option<u32>
    ensures { numbered result ≡ number_of w.now }
{
    match w {
        [] | [b'0', _, ..] => None,
        _ => value(w),
    }
}

// Whether every byte is a digit of HEX.
fn all_digits(w: &[u8]) -> bool
    ensures { result ≡ list_all is_digit w.now }
{
    w.iter().all(|&x| digit(x).is_some())
}

// Whether a word is one pair of digits or more.
#[tactic(auto, using(crate::proofs::Laws::digits_all))]
fn are_pairs(w: &[u8]) -> bool
    ensures { result ≡ are_pairs w.now }
{
    !w.is_empty() && w.len() % 2 == 0 && all_digits(w)
}

// The bytes that pairs of digits spell, at the start of `out`.
#[tactic(auto, using(crate::proofs::Laws::pairs_steps))]
fn decode(w: &[u8], out: &mut [u8])
    requires { all is_digit w.now ≡ true }
    ensures { out.new ≡ written 0 (pairs_of w.now) out.old }
{
    for (i, pair) in w.chunks_exact(2).enumerate() {
        // Both are digits, so no pair is passed over.
        let (Some(a), Some(b)) = (digit(pair[0]), digit(pair[1])) else {
            continue;
        };
        block::put(out, i, 16 * a + b);
    }
}

// The bytes that a word of HEX stands for, at the start of `out`, and how many they are; a word that is none leaves `out`.
#[tactic(auto, using(crate::proofs::Laws::hex_taken), unfolding(crate::specs::Text::hex_of, block::specs::Write::written))]
pub fn unhex(w: &[u8], out: &mut [u8]) -> Option<usize>
    requires { length w.now / 2 ≤ length out.old }
    ensures out_after { hexed result out.new ≡ hex_of w.now }
    ensures out_after_2 { out.new ≡ written 0 (bytes_or (hex_of w.now)) out.old }
    ensures hex_fits { HexFits result (length out.old) }
{
    match w {
        b"-" => Some(0),
        _ if are_pairs(w) => {
            decode(w, out);
            Some(w.len() / 2)
        }
        _ => None,
    }
}

// ---- room

// A buffer of zeros.
pub fn zeros<const N: usize>() -> [u8; N]
    ensures room { length result ≡ N }
    ensures zeros { result ≡ replicate N 0 }
{
    [0; N]
}

// ---- printing: each writes a text from `at` on, and answers its length

// The byte of a digit.
fn glyph(d: u8) -> u8
    requires { d < 16 }
    ensures { result ≡ glyph_of d }
{
    if d < 10 { b'0' + d } else { b'a' + (d - 10) }
}

// Bytes as pairs of digits.
#[tactic(auto, using(crate::proofs::Laws::hex_steps))]
fn put_pairs(out: &mut [u8], at: usize, s: &[u8])
    requires { at + 2 * length s.now ≤ 4_294_967_295 }
    ensures { out.new ≡ written at (hex_pairs s.now) out.old }
{
    for (i, &x) in s.iter().enumerate() {
        let p = at + 2 * i;
        block::put(out, p, glyph(x / 16));
        block::put(out, p + 1, glyph(x % 16));
    }
}

// Bytes as HEX.
#[tactic(auto, using(crate::proofs::Laws::length_pairs), unfolding(crate::specs::Text::hex_text, block::specs::Write::written))]
pub fn put_hex(out: &mut [u8], at: usize, s: &[u8]) -> usize
    requires { at + 2 * length s.now ≤ 4_294_967_295 }
    ensures value { result ≡ length (hex_text s.now) }
    ensures out_after { out.new ≡ written at (hex_text s.now) out.old }
{
    if s.is_empty() {
        block::put(out, at, b'-');
        1
    } else {
        put_pairs(out, at, s);
        2 * s.len()
    }
}

// A number in decimal digits.
#[tactic(auto, using(crate::proofs::Laws::decimal_is))]
pub fn put_decimal(out: &mut [u8], at: usize, n: u32) -> usize
    ensures value { result ≡ length (decimal_of n) }
    ensures out_after { out.new ≡ written at (decimal_of n) out.old }
{
    let mut text = [0u8; 20];
    let k = io::decimal(u64::from(n), &mut text);
    block::put_bytes(out, at, &text[..k]);
    k
}
