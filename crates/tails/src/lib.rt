// The tail of an accepted store: whether there is one, how many blocks it has, and its clearing. Inner functions: each asks for a store that `store::open` accepts, and for U.
#![tactic(auto)]

ghost use Rattle.std.specs.Prelude.{◌+◌, ◌-◌, ◌*◌, ◌≤◌, not, ◌≡◌, eqb, leb, length};
ghost use Rattle.model.specs.Store.{blank_from, tail_of};
ghost use Rattle.tails.specs.Taken.{Clearable, Taken};

// Whether the store has a tail: block U is there and is not all zero.
pub fn has(store: &[u8], used: usize) -> bool
    requires { Taken store.now used }
    ensures { result ≡ not (eqb (tail_of store.now) 0) }
{
    used < store.len() / 512 && !block::is_zero(&store[used * 512..used * 512 + 512])
}

// How many blocks the tail has.
pub fn count(store: &[u8], used: usize) -> usize
    requires { Taken store.now used }
    ensures { result ≡ tail_of store.now }
{
    store[used * 512..]
        .chunks_exact(512)
        .take_while(|b| !block::is_zero(b))
        .count()
}

// Clears the `count` blocks from block `used` on, from the highest down, and stops after n of them: whether all are cleared.
pub fn clear(store: &mut [u8], used: usize, count: usize, n: usize) -> bool
    requires { Clearable store.old used count }
    ensures { (result ≡ leb count n) × (store.new ≡ blank_from (used + (count - n)) store.old) }
{
    for p in (used + count.saturating_sub(n)..used + count).rev() {
        let at = p * 512;
        block::clear(store, at, at + 512);
    }
    count <= n
}
