//! The product of two blocks modulo a monic polynomial.
ghost use Rattle.std.specs.Prelude.{◌≡◌, ◌<◌, length};
ghost use Rattle.algebra.specs.Meaning.{operations, on_bytes};
ghost use Rattle.algebra.specs.Tuples.{times};
ghost use Rattle.algebra.specs.Blocks.{Codes};

use crate::tuples::{add_multiple, multiply_by_x};
use field::Field;

/// Writes `a` times `b` modulo X^v + f, where `modulus` has the v low coefficients f.
pub fn multiply<F: Field>(field: &F, modulus: &[u8], a: &[u8], b: &[u8], product: &mut [u8])
    requires some { 0 < length modulus.now }
    requires operand { length b.now ≡ length modulus.now }
    requires room { length product.old ≡ length modulus.now }
    ensures bytes { product.new ≡ times (on_bytes (F.meaning field.now)) modulus.now a.now b.now }
    ensures codes { Codes (F.meaning field.now) modulus.now → Codes (F.meaning field.now) a.now → Codes (F.meaning field.now) b.now → product.new ≡ times (operations (F.meaning field.now)) modulus.now a.now b.now }
{
    product.fill(0);
    for factor in a.iter().rev() {
        multiply_by_x(field, modulus, product);
        add_multiple(field, *factor, b, product);
    }
}
