// Where a sheet of any revision stands in an accepted store, and what a commit did to a sheet. Inner functions: each asks for a store that `store::open` accepts.
#![tactic(auto)]

ghost use Rattle.std.specs.Prelude.{◌*◌, ◌+◌, ◌<◌, ◌≤◌, ◌≡◌, drop, length};
ghost use Rattle.model.specs.Blocks.{parse_line, parse_lines};
ghost use Rattle.model.specs.Calls.{store_side};
ghost use Rattle.model.specs.History.{last};
ghost use Rattle.model.specs.Machine.{Log, doing};
ghost use Rattle.model.specs.Store.{block_count, blocks_of, store_history};
ghost use Rattle.model.specs.Types.{answer_of};
ghost use Rattle.model.specs.declared.Answer.TheVariants.{Logged};
ghost use Rattle.search.specs.Change.{NamedAt};
ghost use Rattle.search.specs.Deed.{deed_in, deed_of};
ghost use Rattle.search.specs.Find.{Accepted, Bound, Spanned, back, era_at, found_in};

use model::{Action, LogEntry, Source, Span};
use shape::BlockKind;

// What the last commit that names a sheet says of it: the block that the sheet uses since, 0 for a delete, and the commit's revision. Both are 0 where none names it.
#[derive(Clone, Copy)]
pub struct Found {
    pub block: usize,
    pub revision: u32,
}

// Where halving by what the blocks state ends: no commit up to r stands from there on. A content or a commit block states the revision that it belongs to, and a mark none
// that is later.
fn halved(store: &[u8], n: usize, used: usize, r: usize) -> usize
    requires { Accepted store.now n used × (r ≤ last (store_history store.now)) }
    ensures { (1 ≤ result) × (result ≤ used) × (r < era_at (blocks_of used store.now) result) }
{
    let mut lo: usize = 1;
    let mut hi = used;
    while lo < hi {
        let mid = (lo + hi) / 2;
        let a = mid * 512;
        if shape::two_at(&store[a..a + 512], 4) as usize <= r {
            lo = mid + 1;
        } else {
            hi = mid;
        }
    }
    lo
}

// The first block after commit r, or after the label where r is 0. A mark that stands later and states r or less can draw the halving behind it: then the way back is longer.
// The blocks before it stand in the store.
fn bound(store: &[u8], n: usize, used: usize, r: usize) -> usize
    requires { Accepted store.now n used × (r ≤ last (store_history store.now)) }
    ensures bound { Bound (blocks_of used store.now) used r result }
    ensures room { (result ≤ 4096) × (result * 512 ≤ length store.now) }
{
    for p in (1..halved(store, n, used, r)).rev() {
        let a = p * 512;
        let b = &store[a..a + 512];
        if shape::kind(b) != BlockKind::Mark && shape::two_at(b, 4) as usize <= r {
            return p + 1;
        }
    }
    1
}

// Where the first of a commit block's m changes that names sheet i starts.
fn change_of(b: &[u8], m: usize, i: usize) -> Option<usize>
    requires { (length b.now ≡ 512) × (m ≤ 32) }
    ensures { NamedAt i m b.now result }
{
    for j in 0..m {
        let o = 16 + 8 * j;
        if b[o] as usize == i {
            return Some(o);
        }
    }
    None
}

// The newest change of sheet i in the commits up to r before block `end`.
fn find(store: &[u8], n: usize, used: usize, end: usize, r: usize, i: usize) -> Found
    requires { Accepted store.now n used × (end ≤ used) }
    ensures { result ≡ back r (blocks_of used store.now) i end }
{
    let mut found = Found {
        block: 0,
        revision: 0,
    };
    'search: for p in (0..end).rev() {
        let a = p * 512;
        let b = &store[a..a + 512];
        if shape::kind(b) != BlockKind::Commit {
            continue;
        }
        let revision = shape::two_at(b, 4);
        if r < revision as usize {
            continue;
        }
        let m = shape::two_at(b, 2) as usize;
        'changes: for j in 0..m {
            let o = 16 + 8 * j;
            if b[o] as usize == i {
                let block = shape::two_at(b, o + 2) as usize;
                found = Found { block, revision };
                break 'search;
            }
        }
    }
    found
}

// The block that sheet i of tree r uses, and the last commit up to r that names the sheet.
pub fn look_up(store: &[u8], n: usize, used: usize, r: usize, i: usize) -> Found
    requires { Accepted store.now n used × (r ≤ last (store_history store.now)) × (i < 32) }
    ensures { result ≡ found_in store.now r i }
{
    let end = halved(store, n, used, r);
    find(store, n, used, end, r, i)
}

// The place of the bytes that block p holds.
pub fn span_at(store: &[u8], p: usize) -> Span
    requires { p < block_count store.now }
    ensures { Spanned store.now p result }
{
    let a = p * 512;
    let len = shape::size(&store[a..a + 512]);
    Span { start: a + 16, len }
}

// What the change at byte o of a commit block does.
fn deed_at(b: &[u8], o: usize) -> Action
    requires { o + 8 ≤ length b.now }
    ensures { result ≡ deed_of (parse_line (drop o b.now)) }
{
    match b[o + 1] {
        1 => Action::Add,
        2 => Action::Change,
        3 => Action::Delete,
        _ => Action::Copy(Source {
            sheet: u32::from(b[o + 4]),
            revision: shape::two_at(b, o + 6),
        }),
    }
}

// What the m changes of a commit block do to sheet i.
fn deed_in(b: &[u8], m: usize, i: usize) -> Action
    requires { (length b.now ≡ 512) × (m ≤ 32) }
    ensures { result ≡ deed_in i (parse_lines m (drop 16 b.now)) }
{
    match change_of(b, m, i) {
        Some(o) => deed_at(b, o),
        None => Action::Nothing,
    }
}

// Seat, stamp and number of changes of commit r, and what it did to sheet i.
pub fn log_at(store: &[u8], n: usize, used: usize, r: usize, i: usize) -> LogEntry
    requires { Accepted store.now n used × (1 ≤ r) × (r ≤ last (store_history store.now)) × (i < 32) }
    ensures { answer_of (Ok (Logged result)) ≡ (doing (store_side store.now) (Log r i)).0 }
{
    let a = (bound(store, n, used, r) - 1) * 512;
    let b = &store[a..a + 512];
    let changes = shape::two_at(b, 2);
    LogEntry {
        seat: u32::from(b[6]),
        stamp: block::get32(b, 8),
        changes,
        action: deed_in(b, changes as usize, i),
    }
}
