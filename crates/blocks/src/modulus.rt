//! Moduli made over a field.
ghost use Rattle.std.specs.Prelude.{◌≡◌, ◌≤◌, true, length};
ghost use Rattle.algebra.specs.Arithmetic.{Lawful};
ghost use Rattle.algebra.specs.Blocks.{Codes};
ghost use Rattle.algebra.specs.Modular.{q_rows};
ghost use Rattle.blocks.specs.Moduli.{coefficients, kept_rows, arithmetic_of};

use crate::block::Block;
use crate::modulus_value::Modulus;
use crate::quotient::Quotient;
use field::Field;

impl Modulus {
    /// The modulus X^v + f over a field, where `low` has the v coefficients f.
    pub fn new<F: Field>(field: &F, low: &[u8]) -> Modulus
        requires some { 1 ≤ length low.now }
        requires few { length low.now ≤ 32 }
        ensures coefficients { coefficients result ≡ low.now }
        ensures rows { kept_rows result ≡ q_rows (F.meaning field.now) low.now }
        ensures lawful { (F.meaning field.now).sound ≡ true → Codes (F.meaning field.now) low.now → Lawful (arithmetic_of (F.meaning field.now) result) }
    {
        let low = Block::from_bytes(low);
        let rows = Quotient { field, low }.q_rows();
        let size = low.size();
        let low = low.room();
        Modulus { size, low, rows }
    }

    /// Its low coefficients.
    pub(crate) fn low(&self) -> Block
        ensures { result ≡ coefficients self.now }
    {
        Block {
            size: self.size,
            room: self.low,
        }
    }
}
