// Blocks of 512 bytes: fields, the two sums, check and seal. Every function is total: a byte past the end reads as 0 and is not written, and a block that is
// not whole is not sealed.
#![tactic(auto)]

ghost use Rattle.std.specs.Prelude.{◌≡◌, ◌+◌, ◌-◌, ◌*◌, ◌/◌, ◌≤◌, ◌<◌, length, get_or, replicate, set, take};
ghost use Rattle.block.specs.Field.{two_at, four_at, with_two, with_four};
ghost use Rattle.block.specs.Check.{sums, sealed, seal_of, is_zero};
ghost use Rattle.block.specs.Fours.{even_at, odd_at, all_at, fours};
ghost use Rattle.block.specs.Buffer.{block_at, seal_at};
ghost use Rattle.block.specs.Write.{written};

// The byte at k.
pub fn byte(s: &[u8], k: usize) -> u8
    ensures { result ≡ get_or s.now k 0 }
{
    s.get(k).copied().unwrap_or(0)
}

// The two-byte field at k.
pub fn get16(s: &[u8], k: usize) -> u16
    ensures { result ≡ two_at s.now k }
{
    let Some(&low) = s.get(k) else { return 0 };
    let high = byte(s, k + 1);
    u16::from_le_bytes([low, high])
}

// The four-byte field at k.
pub fn get32(s: &[u8], k: usize) -> u32
    ensures { result ≡ four_at s.now k }
{
    let Some(&low) = s.get(k) else { return 0 };
    u32::from_le_bytes([low, byte(s, k + 1), byte(s, k + 2), byte(s, k + 3)])
}

// Writes the byte at k.
pub fn put(s: &mut [u8], k: usize, v: u8)
    ensures { s.new ≡ set s.old k v }
{
    if k < s.len() {
        s[k] = v;
    }
}

// Writes the two-byte field at k.
pub fn put16(s: &mut [u8], k: usize, v: u16)
    ensures { s.new ≡ with_two s.old k v }
{
    put_bytes(s, k, &v.to_le_bytes());
}

// Writes the four-byte field at k.
pub fn put32(s: &mut [u8], k: usize, v: u32)
    ensures { s.new ≡ with_four s.old k v }
{
    put_bytes(s, k, &v.to_le_bytes());
}

// Writes the bytes b from `at` on.
pub fn put_bytes(s: &mut [u8], at: usize, b: &[u8])
    ensures { s.new ≡ written at b.now s.old }
{
    if at < s.len() {
        let n = b.len().min(s.len() - at);
        for j in 0..n {
            s[at + j] = b[j];
        }
    }
}

// Writes zeros from `from` to before `to`.
pub fn clear(s: &mut [u8], from: usize, to: usize)
    ensures { s.new ≡ written from (replicate (to - from) 0) s.old }
{
    let end = to.min(s.len());
    if from < end {
        s[from..end].fill(0);
    }
}

#[derive(Clone, Copy, PartialEq, Eq)]
pub struct Sums {
    pub a: u32,
    pub b: u32,
}

// The four bytes from k on, as one number. With no test between them, and a term for each, the compiler reads the four at once.
fn word(s: &[u8], k: usize) -> u32
    requires { k + 4 ≤ length s.now }
    ensures { result ≡ four_at s.now k }
{
    u32::from(s[k])
        + 256 * u32::from(s[k + 1])
        + 65536 * u32::from(s[k + 2])
        + 16777216 * u32::from(s[k + 3])
}

// What the four bytes from k on add: the first, and the third 65,536 times; the second, and the fourth 65,536 times; all four.
#[derive(Clone, Copy)]
struct Four {
    even: u32,
    odd: u32,
    all: u32,
}

fn read_four(s: &[u8], k: usize) -> Four
    requires { k + 4 ≤ length s.now }
    ensures { (result.even ≡ even_at s.now k) × (result.odd ≡ odd_at s.now k) × (result.all ≡ all_at s.now k) × (result.all ≤ 1020) }
{
    let x = word(s, k);
    let even = x % 256 + 65536 * (x / 65536 % 256);
    let odd = x / 256 % 256 + 65536 * (x / 16777216);
    let both = even + odd;
    Four {
        even,
        odd,
        all: both % 65536 + both / 65536,
    }
}

// The two sums over the whole steps of four bytes, not reduced: 508 bytes cannot overflow 32 bits. `even` and `odd` have the sums of two places in a step each; `w` is the sum
// of all bytes, each counted once for each step after its own. They are joined once, after the last step. No step needs what the step before it found, so the compiler takes
// many at a time.
fn in_fours(s: &[u8]) -> Sums
    requires { length s.now ≤ 508 }
    ensures { let n = length s.now / 4 in (fours 0 0 0 0 0 n s.now ≡ (result.a, result.b)) × (result.a ≤ 1020 * n) × (result.b ≤ 516630 * n) }
{
    let n = s.len() / 4;
    let mut even: u32 = 0;
    let mut odd: u32 = 0;
    let mut w: u32 = 0;
    for i in 0..n {
        let x = read_four(s, 4 * i);
        let left = (n - 1 - i) as u32;
        even += x.even;
        odd += x.odd;
        w += left * x.all;
    }
    let a0 = even % 65536;
    let a1 = odd % 65536;
    let a2 = even / 65536;
    let a3 = odd / 65536;
    Sums {
        a: a0 + a1 + a2 + a3,
        b: 4 * w + 4 * a0 + 3 * a1 + 2 * a2 + a3,
    }
}

// The two sums over bytes 0 to 507, or over all where there are fewer: four bytes at a step, and then the bytes that fill no step. They are reduced once, at the end.
pub fn sums_of(s: &[u8]) -> Sums
    ensures { sums 0 0 (take 508 s.now) ≡ (result.a, result.b) }
{
    let end = s.len().min(508);
    let body = &s[..end];
    let Sums { mut a, mut b } = in_fours(body);
    let stepped = end - end % 4;
    for x in &body[stepped..] {
        a += u32::from(*x);
        b += a;
    }
    Sums {
        a: a % 65521,
        b: b % 65521,
    }
}

// The two sums that the check bytes state.
fn stated(s: &[u8]) -> Sums
    ensures { (result.a ≡ two_at s.now 508) × (result.b ≡ two_at s.now 510) }
{
    Sums {
        a: u32::from(get16(s, 508)),
        b: u32::from(get16(s, 510)),
    }
}

// Whether these are 512 bytes and their check is right.
pub fn check(s: &[u8]) -> bool
    ensures { result ≡ sealed s.now }
{
    s.len() == 512 && sums_of(s) == stated(s)
}

// Writes the check of a block of 512 bytes.
pub fn seal(s: &mut [u8])
    ensures { s.new ≡ seal_of s.old }
{
    if s.len() == 512 {
        let t = sums_of(s);
        put16(s, 508, t.a as u16);
        put16(s, 510, t.b as u16);
    }
}

// Whether every byte is zero. Every byte is read, with no way out before the end, so that the compiler takes many at a time.
pub fn is_zero(s: &[u8]) -> bool
    ensures { result ≡ is_zero s.now }
{
    s.iter().fold(0, |any, x| any | *x) == 0
}

// Whether the buffer has a block j and its check is right.
pub fn check_at(s: &[u8], j: usize) -> bool
    ensures { result ≡ sealed (block_at s.now j) }
{
    j < s.len() / 512 && check(&s[512 * j..512 * j + 512])
}

// Writes the check of block j, where the buffer has one.
pub fn seal_at(s: &mut [u8], j: usize)
    ensures { s.new ≡ seal_at s.old j }
{
    if j < s.len() / 512 {
        let at = 512 * j;
        seal(&mut s[at..at + 512]);
    }
}
