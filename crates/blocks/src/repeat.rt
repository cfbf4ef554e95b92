//! A change that is made again and again.
ghost use Rattle.std.specs.Prelude.{◌≡◌, ℕ, List, length};
ghost use Rattle.algebra.specs.Iteration.{iterate};

use crate::block::Block;

/// A block after `count` changes that keep its size.
pub(crate) fn repeated<C: Fn(Block) -> Block>(change: C, count: usize, block: Block) -> Block
    requires callable { (x : List ℕ) → length x ≡ length block → C.pre change x }
    requires stays { (x r : List ℕ) → C.post change x r → length r ≡ length block }
    ensures value { (f : List ℕ → List ℕ) → ((x r : List ℕ) → C.post change x r → r ≡ f x) → result ≡ iterate f count block }
    ensures size { length result ≡ length block }
{
    let mut changed = block;
    for _ in 0..count {
        changed = change(changed);
    }
    changed
}
