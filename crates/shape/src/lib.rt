// One store block of 512 bytes: its shape by its first byte, the counts over the changes of a commit block, the bytes that two blocks hold, and the next row of the
// table of block numbers. Inner functions: each states what it asks, and its answer by one equation.
#![tactic(auto)]

ghost use Rattle.std.specs.Prelude.{◌*◌, ◌+◌, ◌-◌, ◌<◌, ◌≤◌, ℕ, ◌≡◌, eqb, drop, get_or, length};
ghost use Rattle.block.specs.Field.{two_at};
ghost use Rattle.block.specs.Lists.{all_from, same};
ghost use Rattle.model.specs.Blocks.{fields_of, fits_block, held, parse, parse_lines};
ghost use Rattle.model.specs.Codec.{shaped};
ghost use Rattle.model.specs.Layout.{pointed};
ghost use Rattle.model.specs.Pass.{grown, none_twice};
ghost use Rattle.shape.specs.Rows.{Growable, rows_of};
ghost use Rattle.shape.specs.Shape.{kind_of, lines_ok};

// The two-byte field at i.
pub fn two_at(s: &[u8], i: usize) -> u32
    ensures { (result ≡ two_at s.now i) × (result < 65536) }
{
    u32::from(block::get16(s, i))
}

// Whether a block whose first byte is 2 has the shape of a content block.
#[tactic(auto, using(crate::proofs::Shapes::content_law))]
fn content_shape(s: &[u8]) -> bool
    requires { (length s.now ≡ 512) × (get_or s.now 0 0 ≡ 2) }
    ensures { result ≡ shaped fields_of parse fits_block s.now }
{
    let n = usize::from(block::get16(s, 2));
    s[1] == 0 && n <= 480 && block::is_zero(&s[6..16]) && block::is_zero(&s[16 + n..508])
}

// Whether each of the m changes has an action 1 to 4 and a zero in its byte 5.
#[tactic(auto, using(crate::proofs::Turns::lines_law))]
fn lines_shape(s: &[u8], m: usize) -> bool
    requires { (length s.now ≡ 512) × (m ≤ 32) }
    ensures { result ≡ lines_ok m (drop 16 s.now) }
{
    for j in 0..m {
        let at = 16 + 8 * j;
        if !matches!(s[at + 1], 1..=4) || s[at + 5] != 0 {
            return false;
        }
    }
    true
}

// Whether a block whose first byte is 3 has the shape of a commit block.
#[tactic(auto, using(crate::proofs::Shapes::commit_law))]
fn commit_shape(s: &[u8]) -> bool
    requires { (length s.now ≡ 512) × (get_or s.now 0 0 ≡ 3) }
    ensures { result ≡ shaped fields_of parse fits_block s.now }
{
    let m = usize::from(block::get16(s, 2));
    s[1] == 0
        && m <= 32
        && s[7] == 0
        && block::is_zero(&s[12..16])
        && lines_shape(s, m)
        && block::is_zero(&s[16 + 8 * m..508])
}

// Whether a block whose first byte is 1 has the shape of the label.
#[tactic(auto, using(crate::proofs::Shapes::label_law))]
fn label_shape(s: &[u8]) -> bool
    requires { (length s.now ≡ 512) × (get_or s.now 0 0 ≡ 1) }
    ensures { result ≡ shaped fields_of parse fits_block s.now }
{
    s[1] == 1 && block::is_zero(&s[2..508])
}

// Whether a block whose first byte is 6 has the shape of a release block.
#[tactic(auto, using(crate::proofs::Shapes::release_law))]
fn release_shape(s: &[u8]) -> bool
    requires { (length s.now ≡ 512) × (get_or s.now 0 0 ≡ 6) }
    ensures { result ≡ shaped fields_of parse fits_block s.now }
{
    block::is_zero(&s[1..4]) && s[7] == 0 && block::is_zero(&s[12..508])
}

// Whether a block has the shape of what its first byte says. Marks stand apart: of four tests in a row the compiler makes a jump through a table, which is slower.
#[tactic(auto, using(crate::proofs::Shapes::other_laws))]
pub fn shape(s: &[u8]) -> bool
    requires { length s.now ≡ 512 }
    ensures { result ≡ shaped fields_of parse fits_block s.now }
{
    if 3 < s[0] {
        return s[0] == 6 && release_shape(s);
    }
    match s[0] {
        1 => label_shape(s),
        2 => content_shape(s),
        3 => commit_shape(s),
        _ => block::is_zero(&s[0..508]),
    }
}

// What a block is by its first byte.
#[derive(Clone, Copy, PartialEq, Eq)]
pub enum BlockKind {
    Blank,
    Label,
    Content,
    Commit,
    Mark,
}

// What a block is: any other first byte than those of a label, a content block, a commit block and a mark is that of a blank block.
#[tactic(auto, unfolding(model::specs::Blocks::parse))]
pub fn kind(s: &[u8]) -> BlockKind
    requires { length s.now ≡ 512 }
    ensures { result ≡ kind_of (parse s.now) }
{
    match s[0] {
        1 => BlockKind::Label,
        2 => BlockKind::Content,
        3 => BlockKind::Commit,
        6 => BlockKind::Mark,
        _ => BlockKind::Blank,
    }
}

// Whether no sheet stands twice in the m changes from byte `base` on. A sheet that was seen is marked.
#[tactic(auto, using(crate::proofs::Changes::apart_laws))]
pub fn none_twice(s: &[u8], base: usize, m: usize) -> bool
    requires { (base + 8 * m ≤ length s.now) × (m ≤ 32) }
    ensures { result ≡ none_twice (parse_lines m (drop base s.now)) }
{
    let mut seen = [false; 256];
    for j in 0..m {
        let i = usize::from(s[base + 8 * j]);
        if seen[i] {
            return false;
        }
        seen[i] = true;
    }
    true
}

// How many of the m changes from byte `base` on point to block `at`, to the next one, and so on, for 32 blocks.
fn tally(s: &[u8], base: usize, m: usize, at: usize) -> [u8; 32]
    requires { (base + 8 * m ≤ length s.now) × (m ≤ 32) }
    ensures { (q : ℕ) → q < 32 → get_or result q 0 ≡ pointed (at + q) (parse_lines m (drop base s.now)) }
{
    let mut counts = [0; 32];
    for j in 0..m {
        let p = usize::from(block::get16(s, base + 8 * j + 2));
        if at <= p && p - at < counts.len() {
            counts[p - at] += 1;
        }
    }
    counts
}

// Whether each of the k blocks from block `at` on is pointed to by just one of the m changes. More than 32 are not: there are at most 32 changes.
pub fn one_each(s: &[u8], base: usize, m: usize, at: usize, k: usize) -> bool
    requires { (base + 8 * m ≤ length s.now) × (m ≤ 32) × (at + k ≤ 4096) }
    ensures { result ≡ all_from (λ (p : ℕ). eqb (pointed p (parse_lines m (drop base s.now))) 1) at k }
{
    if 32 < k {
        return false;
    }
    let counts = tally(s, base, m, at);
    counts[..k].iter().all(|n| *n == 1)
}

// How many bytes a block holds: a content block its length, any other none.
#[tactic(auto, using(crate::proofs::Held::size_laws))]
pub fn size(s: &[u8]) -> usize
    requires { length s.now ≡ 512 }
    ensures { (result ≡ length (held (parse s.now))) × (result ≤ 496) }
{
    if s[0] == 2 {
        usize::from(block::get16(s, 2)).min(496)
    } else {
        0
    }
}

// Whether two parts hold the same bytes. Every byte is read, with no way out before the end, so that the compiler takes many at a time.
pub fn same_part<'a>(a: &'a [u8], b: &'a [u8]) -> bool
    ensures { result ≡ same a.now b.now }
{
    a.len() == b.len() && a.iter().zip(b).fold(0, |off, (x, y)| off | (*x ^ *y)) == 0
}

// Whether two blocks hold the same bytes.
#[tactic(auto, using(crate::proofs::Held::held_part))]
pub fn same_held<'a>(s: &'a [u8], t: &'a [u8]) -> bool
    requires { (length s.now ≡ 512) × (length t.now ≡ 512) }
    ensures { result ≡ same (held (parse s.now)) (held (parse t.now)) }
{
    same_part(&s[16..16 + size(s)], &t[16..16 + size(t)])
}

// The row of tree r, from the row of tree r - 1 and the m changes from byte `base` on.
pub fn grow(tab: &mut [u16], r: usize, s: &[u8], base: usize, m: usize)
    requires { Growable tab.old r s.now base m }
    ensures { rows_of (r + 1) tab.new ≡ grown (rows_of r tab.old) (parse_lines m (drop base s.now)) }
{
    let to = 32 * r;
    tab.copy_within(to - 32..to, to);
    for j in 0..m {
        let at = base + 8 * j;
        tab[to + usize::from(s[at])] = block::get16(s, at + 2);
    }
}
