//! The two steps that undo each other: raising to 1 + q^t, and raising back.
ghost use Rattle.std.specs.Prelude.{◌≡◌, ◌<◌, ◌≤◌, length};
ghost use Rattle.algebra.specs.Arithmetic.{BlockOf, Lawful, Returns};
ghost use Rattle.algebra.specs.BlockSteps.{forward_step, back_step, forward_power, back_power, BlocksUndo};
ghost use Rattle.algebra.specs.Exponent.{Suits};

use crate::arithmetic::BlockArithmetic;
use crate::block::Block;
use crate::chain::{follow_chain, raise_by, raise_repeatedly, square_repeatedly};

/// A block raised to 1 + q^t.
pub fn raise_forward<B: BlockArithmetic>(blocks: &B, t: usize, block: Block) -> Block
    requires { length block ≡ (B.arithmetic blocks.now).size }
    ensures step { result ≡ forward_step (B.arithmetic blocks.now) t block }
    ensures power { Lawful (B.arithmetic blocks.now) → BlockOf (B.arithmetic blocks.now) block → result ≡ forward_power (B.arithmetic blocks.now) t block }
    ensures size { length result ≡ (B.arithmetic blocks.now).size }
{
    blocks.multiply(raise_repeatedly(blocks, t, block), block)
}

/// A block raised to the exponent that undoes 1 + q^t, in small steps, for blocks of size (2l + 1)·2^r.
pub fn raise_back<B: BlockArithmetic>(blocks: &B, l: usize, t: usize, block: Block) -> Block
    requires size { length block ≡ (B.arithmetic blocks.now).size }
    requires factor { 1 ≤ l }
    requires exponent { 1 ≤ t }
    requires below { t < (B.arithmetic blocks.now).size }
    ensures step { result ≡ back_step (B.arithmetic blocks.now) l t block }
    ensures power { Lawful (B.arithmetic blocks.now) → Returns (B.arithmetic blocks.now) → Suits (B.arithmetic blocks.now).size l t → BlockOf (B.arithmetic blocks.now) block → result ≡ back_power (B.arithmetic blocks.now) t block }
    ensures size { length result ≡ (B.arithmetic blocks.now).size }
{
    let width = usize::from(blocks.width());
    let low = follow_chain(blocks, |n, x| square_repeatedly(blocks, n, x), width, block);
    let middle = follow_chain(blocks, |n, x| raise_by(blocks, 1, n, x), t, low);
    let high = follow_chain(blocks, |n, x| raise_by(blocks, 2 * t, n, x), l, middle);
    let top = raise_by(blocks, 2 * t, l, block);
    let whole = blocks.multiply(top, high);
    let raised = raise_by(blocks, 1, t - 1, whole);
    square_repeatedly(blocks, width - 1, raised)
}

/// In lawful arithmetic where every block is its own q^v-th power, the two steps undo each other at every block.
pub fn steps_undo<B: BlockArithmetic>(blocks: &B)
    ensures { BlocksUndo (B.arithmetic blocks.now) }
{}
