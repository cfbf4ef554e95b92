//! Products modulo a monic polynomial, as block arithmetic.
ghost use Rattle.std.specs.Prelude.{◌≡◌};
ghost use Rattle.blocks.specs.Moduli.{coefficients, arithmetic_of};
ghost use Rattle.blocks.specs.ModuliLemmas.{is_formed};

use crate::arithmetic::BlockArithmetic;
use crate::block::Block;
use crate::linear::combined;
use crate::modular_value::Modular;
use crate::quotient::Quotient;
use field::Field;

impl<'f, 'm, F: Field> Modular<'f, 'm, F> {
    /// What its products take.
    pub(crate) fn quotient(&self) -> Quotient<'f, F>
        ensures field { result.field.now ≡ self.now.field.now }
        ensures low { result.low ≡ coefficients self.now.modulus.now }
    {
        Quotient {
            field: self.field,
            low: self.modulus.low(),
        }
    }
}

impl<'f, 'm, F: Field> BlockArithmetic for Modular<'f, 'm, F> {
    ghost arithmetic = { λ x. arithmetic_of (F.Field.meaning x.field.now) x.modulus.now };

    ghost formed = { λ x. is_formed (F.Field.meaning x.field.now) (F.Field.shape x.field.now) x.modulus.now };

    fn width(&self) -> u8 {
        self.field.width()
    }

    fn size(&self) -> usize {
        self.modulus.size
    }

    fn multiply(&self, a: Block, b: Block) -> Block {
        self.quotient().product(a, b)
    }

    // Beside `multiply` and not by it in the trait, since hardware may square in a way of its own.
    fn square(&self, block: Block) -> Block {
        self.quotient().product(block, block)
    }

    fn raise_to_q(&self, block: Block) -> Block {
        let zeros = Block::zeros(self.modulus.size);
        combined(self.field, zeros, &self.modulus.rows, block)
    }
}
