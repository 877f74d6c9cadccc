// Whether a store's bytes are the layout of a history, with or without a tail: refusals 1 to 3, or the last revision and the used blocks. Nothing is written. The zero
// blocks are passed over from the end; then one pass over the checks, one over the shapes and one forward over the commits and marks, with a table of 32 block numbers
// for each revision, so that a copy's source is one read; and last the test of all marks together.
#![tactic(auto)]

ghost use Rattle.std.specs.Prelude.{◌*◌, ◌+◌, ◌≤◌, ◌<◌, [], ◌≡◌, drop, get_or, length};
ghost use Rattle.block.specs.Field.{two_at};
ghost use Rattle.block.specs.Lists.{all, same};
ghost use Rattle.model.specs.Blocks.{bytes_at, fields_of, fits_block, parse, parse_line, parse_lines};
ghost use Rattle.model.specs.Codec.{parts, shaped};
ghost use Rattle.model.specs.Pass.{laid, rule, stands};
ghost use Rattle.model.specs.Store.{blocks_of, checked, counted_by, filled_in, whole_by};
ghost use Rattle.marks.specs.Laid.{Laid};
ghost use Rattle.shape.specs.Rows.{rows_of};
ghost use Rattle.shape.specs.Shape.{kind_of};
ghost use Rattle.store.specs.Known.{Fresh, Known, mark_in};
ghost use Rattle.store.specs.Opened.{Markless, PassedAs, marked_of, open_of, opened_as};
ghost use Rattle.store.specs.Rule.{bare, copy_rule, own_of, plain_rule};
ghost use Rattle.store.specs.declared.Header.{Header};

use model::Refusal;
use shape::BlockKind;

// The last revision, and U, the used blocks.
#[derive(Clone, Copy)]
pub struct Header {
    pub last: usize,
    pub used: usize,
}

// What the forward pass answers: whether it met a mark.
#[derive(Clone, Copy)]
pub enum Passed {
    Plain(Header),
    Marked(Header),
}

// Where the forward pass stands, over n blocks: the last revision so far, and the next commit's k content blocks from block `at` on.
#[derive(Clone, Copy)]
pub struct Spot {
    pub n: usize,
    pub last: usize,
    pub at: usize,
    pub k: usize,
}

// A change of a commit block, and `old`, the block that its sheet uses before.
#[derive(Clone, Copy)]
pub struct Change {
    pub action: u8,
    pub old: usize,
    pub block: usize,
    pub source: usize,
    pub revision: usize,
}

// Whether the check of each of the n blocks is right.
fn all_sealed(store: &[u8], n: usize) -> bool
    requires { n * 512 ≤ length store.now }
    ensures { result ≡ checked n store.now }
{
    store[..512 * n].chunks_exact(512).all(block::check)
}

// Whether each of the n blocks has the shape of what its first byte says.
fn all_shaped(store: &[u8], n: usize) -> bool
    requires { n * 512 ≤ length store.now }
    ensures { result ≡ all (shaped fields_of parse fits_block) (parts n store.now) }
{
    store[..512 * n].chunks_exact(512).all(shape::shape)
}

// Whether block p is one of the commit's content blocks.
fn is_own(w: Spot, p: usize) -> bool
    requires { w.at + w.k ≤ 4096 }
    ensures { result ≡ own_of w.at w.k p }
{
    w.at <= p && p < w.at + w.k
}

// Whether the source fields are zero.
fn is_bare(c: Change) -> bool
    ensures { result ≡ bare c }
{
    c.source == 0 && c.revision == 0
}

// The rule of an add, a change or a delete.
#[tactic(auto, unfolding(crate::specs::Rule::plain_rule))]
fn plain_rule(w: Spot, c: Change) -> bool
    requires { w.at + w.k ≤ 4096 }
    ensures { result ≡ plain_rule w c }
{
    match c.action {
        1 => c.old == 0 && is_own(w, c.block) && is_bare(c),
        2 => c.old != 0 && is_own(w, c.block) && is_bare(c),
        _ => c.old != 0 && c.block == 0 && is_bare(c),
    }
}

// Whether blocks p and q hold the same bytes; past the end there are none.
fn same_bytes(store: &[u8], n: usize, p: usize, q: usize) -> bool
    requires { (n * 512 ≤ length store.now) × (p < n) }
    ensures { result ≡ same (bytes_at (blocks_of n store.now) p) (bytes_at (blocks_of n store.now) q) }
{
    let block = &store[p * 512..p * 512 + 512];
    if n <= q {
        return shape::size(block) == 0;
    }
    shape::same_held(block, &store[q * 512..q * 512 + 512])
}

// The rule of a copy, from the block that the source uses in its revision.
fn copy_rule<'a>(store: &'a [u8], tab: &'a [u16], w: Spot, c: Change) -> bool
    requires { Known store.now tab.now w }
    ensures { result ≡ copy_rule (bytes_at (blocks_of w.n store.now)) w c (get_or (get_or (rows_of (w.last + 1) tab.now) c.revision []) c.source 0) }
{
    if c.old != 0 || c.revision < 1 || w.last < c.revision || 32 <= c.source {
        return false;
    }
    let used = usize::from(tab[32 * c.revision + c.source]);
    used != 0 && (c.block == used || is_own(w, c.block) && !same_bytes(store, w.n, c.block, used))
}

// The rule of one change, in its 8 bytes.
#[tactic(auto, unfolding(model::specs::Pass::rule))]
fn rule_of<'a>(store: &'a [u8], change: &'a [u8], tab: &'a [u16], w: Spot) -> bool
    requires { Known store.now tab.now w × (length change.now ≡ 8) }
    ensures { result ≡ rule (bytes_at (blocks_of w.n store.now)) w.at w.k (rows_of (w.last + 1) tab.now) (parse_line change.now) }
{
    let sheet = usize::from(change[0]);
    if 32 <= sheet {
        return false;
    }
    let c = Change {
        action: change[1],
        old: usize::from(tab[32 * w.last + sheet]),
        block: shape::two_at(change, 2) as usize,
        source: usize::from(change[4]),
        revision: shape::two_at(change, 6) as usize,
    };
    match c.action {
        1..=3 => plain_rule(w, c),
        _ => copy_rule(store, tab, w, c),
    }
}

// Whether each of the m changes of the commit block b keeps the rules.
fn rules<'a>(store: &'a [u8], b: &'a [u8], tab: &'a [u16], w: Spot, m: usize) -> bool
    requires { Known store.now tab.now w × (length b.now ≡ 512) × (m ≤ 32) }
    ensures { result ≡ all (rule (bytes_at (blocks_of w.n store.now)) w.at w.k (rows_of (w.last + 1) tab.now)) (parse_lines m (drop 16 b.now)) }
{
    b[16..16 + 8 * m]
        .chunks_exact(8)
        .all(|change| rule_of(store, change, tab, w))
}

// Whether the commit block b, and the content blocks before it, are laid as the next commit.
fn laid_at<'a>(store: &'a [u8], b: &'a [u8], tab: &'a [u16], w: Spot) -> bool
    requires { Known store.now tab.now w × (length b.now ≡ 512) }
    ensures { result ≡ laid (bytes_at (blocks_of w.n store.now)) w.at w.k (rows_of (w.last + 1) tab.now) (get_or b.now 6 0) (parse_lines (two_at b.now 2) (drop 16 b.now)) }
{
    let seat = b[6];
    let m = shape::two_at(b, 2) as usize;
    if seat < 1 || 4 < seat || m < 1 || 32 < m {
        return false;
    }
    rules(store, b, tab, w, m)
        && shape::none_twice(b, 16, m)
        && shape::one_each(b, 16, m, w.at, w.k)
}

// Whether the mark in block b may stand where these trees are known: a release names a revision from 1 to the last, and seats are 1 to 4.
#[tactic(auto, using(crate::proofs::PassLaws::stands_is))]
fn mark_stands<'a>(b: &'a [u8], tab: &'a [u16], w: Spot) -> bool
    requires { (length b.now ≡ 512) × (kind_of (parse b.now) ≡ BlockKind.Mark) }
    ensures { result ≡ stands (rows_of (w.last + 1) tab.now) (mark_in (parse b.now)) }
{
    let r = shape::two_at(b, 4) as usize;
    if r < 1 || w.last < r {
        return false;
    }
    1 <= b[6] && b[6] <= 4
}

// The forward pass over the blocks after the label. Row v of the table gets the block that each sheet of tree v uses. The content blocks that are left at the end are the
// tail's. A mark states a revision that is there, any other block the next one.
fn pass(store: &[u8], n: usize, tab: &mut [u16]) -> Result<Passed, Refusal>
    requires { Fresh store.now n tab.old }
    ensures { PassedAs n store.now result }
{
    let mut at: usize = 1;
    let mut k: usize = 0;
    let mut last: usize = 0;
    let mut met = false;
    for pos in 1..n {
        let w = Spot { n, last, at, k };
        let b = &store[pos * 512..pos * 512 + 512];
        let next = shape::two_at(b, 4) as usize == last + 1;
        match shape::kind(b) {
            BlockKind::Content if next => k += 1,
            BlockKind::Commit if next && laid_at(store, b, tab, w) => {
                last += 1;
                shape::grow(tab, last, b, 16, shape::two_at(b, 2) as usize);
                at = pos + 1;
                k = 0;
            }
            BlockKind::Mark if k == 0 && mark_stands(b, tab, w) => {
                at = pos + 1;
                met = true;
            }
            _ => return Err(Refusal::StoreLayout),
        }
    }
    if 32 < k {
        return Err(Refusal::StoreLayout);
    }
    let h = Header { last, used: at };
    Ok(if met {
        Passed::Marked(h)
    } else {
        Passed::Plain(h)
    })
}

// The pass with a table of N block numbers. It is called, not copied into its caller, so that a small store does not pay for a large store's table.
#[inline(never)]
fn pass_with<const N: usize>(store: &[u8], n: usize) -> Result<Passed, Refusal>
    requires { (n * 512 ≤ length store.now) × (1 ≤ n) × (32 * n ≤ N) × (N ≤ 131072) }
    ensures { PassedAs n store.now result }
{
    let mut tab = [0u16; N];
    pass(store, n, &mut tab)
}

// The pass, with a small table where there are few blocks.
fn pass_over(store: &[u8], n: usize) -> Result<Passed, Refusal>
    requires { (n * 512 ≤ length store.now) × (1 ≤ n) × (n ≤ 4096) }
    ensures { PassedAs n store.now result }
{
    if n <= 64 {
        pass_with::<2048>(store, n)
    } else {
        pass_with::<131072>(store, n)
    }
}

// The pass's answer, or the refusal of marks that do not go together.
fn marked(store: &[u8], o: Result<Passed, Refusal>) -> Result<Header, Refusal>
    requires { ((h : Header) → opened_as o ≡ Ok h → Laid store.now h.used) × Markless store.now o }
    ensures { result ≡ marked_of store.now (opened_as o) }
{
    match o? {
        Passed::Plain(h) => Ok(h),
        Passed::Marked(h) if marks::together(store, h.used) => Ok(h),
        Passed::Marked(_) => Err(Refusal::StoreLayout),
    }
}

// How many blocks there are up to the last that is not all zero.
fn filled(store: &[u8], n: usize) -> usize
    requires { n * 512 ≤ length store.now }
    ensures { (result ≡ filled_in n store.now) × (result ≤ n) }
{
    for p in (0..n).rev() {
        if !block::is_zero(&store[p * 512..p * 512 + 512]) {
            return p + 1;
        }
    }
    0
}

// Of f blocks up to the last that is not all zero, how many are checked: all but that one, and the label.
fn counted(f: usize) -> usize
    ensures { (result ≡ counted_by f) × (result ≤ f) }
{
    if f <= 1 { f } else { f - 1 }
}

// The same f blocks without the last, if its check is wrong.
fn whole(store: &[u8], f: usize) -> usize
    requires { 1 ≤ f }
    ensures { (result ≡ whole_by f store.now) × (1 ≤ result) × (result ≤ f) }
{
    if f == 1 || block::check_at(store, f - 1) {
        f
    } else {
        f - 1
    }
}

// The store's refusal, if it is one of 1 to 3, or its last revision and used blocks.
pub fn open(store: &[u8]) -> Result<Header, Refusal>
    ensures { result ≡ open_of store.now }
{
    let n = store.len() / 512;
    if store.len() % 512 != 0 || n < 2 || 4096 < n {
        return Err(Refusal::StoreLength);
    }
    let f = filled(store, n);
    if f == 0 {
        return Err(Refusal::StoreLayout);
    }
    if !all_sealed(store, counted(f)) {
        return Err(Refusal::StoreCheck);
    }
    let m = whole(store, f);
    if !all_shaped(store, m) || shape::kind(&store[..512]) != BlockKind::Label {
        return Err(Refusal::StoreLayout);
    }
    marked(store, pass_over(store, m))
}
