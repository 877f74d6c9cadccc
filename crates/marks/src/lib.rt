// The releases of a store, each found by one walk over its blocks. Inner functions: each asks for blocks that are laid as commits and marks.
#![tactic(auto)]

ghost use Rattle.std.specs.Prelude.{◌*◌, ◌<◌, ◌≤◌, ◌≡◌, length, take};
ghost use Rattle.std.specs.Slice.Iter.{chunks_exact_rest, chunks_exact_size};
ghost use Rattle.model.specs.Blocks.{parse};
ghost use Rattle.model.specs.Log.{among, marks, marks_ok, panel_revision, releases};
ghost use Rattle.model.specs.Pass.{log_all};
ghost use Rattle.model.specs.Store.{blocks_of};
ghost use Rattle.marks.specs.Laid.{Laid};
ghost use Rattle.marks.specs.Revisions.{nonzero, revision_of};

use std::slice::ChunksExact;

// The revision that a release block names. There is no revision 0.
#[tactic(auto, using(crate::proofs::Turns::revision_laws))]
fn released_at(b: &[u8]) -> Option<u32>
    ensures { result ≡ nonzero (revision_of (parse b.now)) }
{
    let r = u32::from(block::get16(b, 4));
    if block::byte(b, 0) == 6 && r != 0 {
        Some(r)
    } else {
        None
    }
}

// The n blocks one after the other.
fn blocks(store: &[u8], n: usize) -> ChunksExact<'_, u8>
    requires { n * 512 ≤ length store.now }
    ensures rest { chunks_exact_rest result ≡ take (n * 512) store.now }
    ensures size { chunks_exact_size result ≡ 512 }
{
    store[..n * 512].chunks_exact(512)
}

// Whether no revision is released twice in the n blocks. A revision that was seen is marked. It is called, not copied into its caller, so that a store without releases does not
// pay for the marks.
#[inline(never)]
pub fn together(store: &[u8], n: usize) -> bool
    requires { Laid store.now n }
    ensures { result ≡ marks_ok (marks (log_all (blocks_of n store.now))) }
{
    let mut seen = [false; 4096];
    for x in blocks(store, n).filter_map(released_at) {
        let x = x as usize;
        if seen[x] {
            return false;
        }
        seen[x] = true;
    }
    true
}

// Whether revision r is released in the n blocks.
pub fn is_released(store: &[u8], n: usize, r: u32) -> bool
    requires { Laid store.now n }
    ensures { result ≡ among r (releases (marks (log_all (blocks_of n store.now)))) }
{
    r != 0 && blocks(store, n).filter_map(released_at).any(|x| x == r)
}

// The greatest revision up to r that is released in the n blocks, 0 if there is none.
pub fn greatest(store: &[u8], n: usize, r: u32) -> u32
    requires { Laid store.now n }
    ensures { result ≡ panel_revision (marks (log_all (blocks_of n store.now))) r }
{
    blocks(store, n)
        .filter_map(released_at)
        .filter(|x| *x <= r)
        .fold(0, |most, x| most.max(x))
}
