//! Products of many powers of a block by a chain of few products.
ghost use Rattle.std.specs.Prelude.{◌≡◌, ℕ, ◌^◌, ◌<◌, ◌≤◌, List, length};
ghost use Rattle.algebra.specs.BlockSteps.{squares, q_powers};
ghost use Rattle.algebra.specs.Chains.{by_chain};
ghost use Rattle.algebra.specs.Iteration.{iterate};

use crate::arithmetic::BlockArithmetic;
use crate::block::Block;
use crate::repeat::repeated;

/// A block squared `count` times.
pub fn square_repeatedly<B: BlockArithmetic>(blocks: &B, count: usize, block: Block) -> Block
    requires { length block ≡ (B.arithmetic blocks.now).size }
    ensures value { result ≡ squares (B.arithmetic blocks.now) count block }
    ensures size { length result ≡ (B.arithmetic blocks.now).size }
{
    repeated(|power| blocks.square(power), count, block)
}

/// A block raised to q^count, by as many applications of the q-th power.
pub fn raise_repeatedly<B: BlockArithmetic>(blocks: &B, count: usize, block: Block) -> Block
    requires { length block ≡ (B.arithmetic blocks.now).size }
    ensures value { result ≡ iterate (B.arithmetic blocks.now).q_power count block }
    ensures size { length result ≡ (B.arithmetic blocks.now).size }
{
    repeated(|power| blocks.raise_to_q(power), count, block)
}

/// A block raised to q^k, `count` times over. Raising to q^v changes nothing, so powers of q count modulo v.
pub fn raise_by<B: BlockArithmetic>(blocks: &B, k: usize, count: usize, block: Block) -> Block
    requires { length block ≡ (B.arithmetic blocks.now).size }
    ensures value { result ≡ q_powers (B.arithmetic blocks.now) k count block }
    ensures size { length result ≡ (B.arithmetic blocks.now).size }
{
    let v = blocks.size();
    raise_repeatedly(blocks, (k % v) * (count % v) % v, block)
}

/// The product of the n terms that a block and its strides are, by the chain to n; `advance` takes so many strides.
pub fn follow_chain<B: BlockArithmetic, S: Fn(usize, Block) -> Block>(
    blocks: &B,
    advance: S,
    n: usize,
    block: Block,
) -> Block
    requires some { 1 ≤ n }
    requires size { length block ≡ (B.arithmetic blocks.now).size }
    requires callable { (count : ℕ) (x : List ℕ) → count < 2 ^ 64 → length x ≡ (B.arithmetic blocks.now).size → S.pre advance count x }
    requires stays { (count : ℕ) (x r : List ℕ) → S.post advance count x r → length r ≡ (B.arithmetic blocks.now).size }
    ensures value { (raised : ℕ → List ℕ → List ℕ) → ((count : ℕ) (x r : List ℕ) → S.post advance count x r → r ≡ raised count x) → result ≡ by_chain (B.arithmetic blocks.now).product raised n block }
    ensures size { length result ≡ (B.arithmetic blocks.now).size }
{
    let mut product = block;
    // The bits of n, from the second highest down; they are no collection.
    for i in (0..n.ilog2()).rev() {
        product = blocks.multiply(advance(n >> (i + 1), product), product);
        if (n >> i) % 2 == 1 {
            product = blocks.multiply(block, advance(1, product));
        }
    }
    product
}
