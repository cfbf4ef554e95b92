//! What holds of the product of blocks over a sound field.
ghost use Rattle.std.specs.Prelude.{◌≡◌, true};
ghost use Rattle.algebra.specs.Blocks.{ModularProducts, ModularByteProducts, BlockRemainders};

use field::Field;

/// Over a sound field the product modulo any monic polynomial is bilinear, commutative and associative, and has a unit; and it is the remainder
/// of the plain product. It is so with the operations on codes and with those on bytes.
pub fn products_stand<F: Field>(field: &F)
    ensures products { (F.meaning field.now).sound ≡ true → ModularProducts (F.meaning field.now) }
    ensures bytes { (F.meaning field.now).sound ≡ true → ModularByteProducts (F.meaning field.now) }
    ensures remainders { (F.meaning field.now).sound ≡ true → BlockRemainders (F.meaning field.now) }
{}
