//! What block arithmetic is, whatever its kind.
ghost use Rattle.std.specs.Prelude.{◌≡◌, length};
ghost use Rattle.algebra.specs.Arithmetic.{Arithmetic, Formed};

use crate::block::Block;

/// Arithmetic on the blocks of one size over a field: products, and the q-th power, where q is how many codes the field has.
/// It works on bytes that need not be codes; what its laws are is said of codes.
// Every call, here and above, asks for a block of the arithmetic's size: that relates two arguments, and a struct of both would name both again.
pub trait BlockArithmetic {
    ghost arithmetic: { Self → Arithmetic };

    /// How many bits a code has.
    fn width(&self) -> u8
        ensures { result ≡ (arithmetic self.now).field.width };

    /// How many codes a block has.
    fn size(&self) -> usize
        ensures value { result ≡ (arithmetic self.now).size }
        ensures formed { Formed (arithmetic self.now) };

    /// The product of two blocks.
    fn multiply(&self, a: Block, b: Block) -> Block
        requires left { length a ≡ (arithmetic self.now).size }
        requires right { length b ≡ (arithmetic self.now).size }
        ensures value { result ≡ (arithmetic self.now).product a b }
        ensures size { length result ≡ (arithmetic self.now).size };

    /// The square of a block.
    fn square(&self, block: Block) -> Block
        requires { length block ≡ (arithmetic self.now).size }
        ensures value { result ≡ (arithmetic self.now).product block block }
        ensures size { length result ≡ (arithmetic self.now).size };

    /// The q-th power of a block.
    fn raise_to_q(&self, block: Block) -> Block
        requires { length block ≡ (arithmetic self.now).size }
        ensures value { result ≡ (arithmetic self.now).q_power block }
        ensures size { length result ≡ (arithmetic self.now).size };

    ghost formed: { (x : Self) → Formed (arithmetic x) };
}
