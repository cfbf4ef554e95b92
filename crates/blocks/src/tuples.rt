//! Sums and multiples of blocks, and X times a block modulo a monic polynomial.
ghost use Rattle.std.specs.Prelude.{◌≡◌, ◌<◌, ◌≤◌, length};
ghost use Rattle.algebra.specs.Meaning.{IsCode, operations, on_bytes};
ghost use Rattle.algebra.specs.Tuples.{plus, scale, times_x};
ghost use Rattle.algebra.specs.Blocks.{Codes};

use field::Field;

/// Adds `factor` times `block` to `sum`, place by place, as far as `sum` goes.
pub fn add_multiple<F: Field>(field: &F, factor: u8, block: &[u8], sum: &mut [u8])
    requires { length sum.old ≤ length block.now }
    ensures bytes { sum.new ≡ plus (on_bytes (F.meaning field.now)) (scale (on_bytes (F.meaning field.now)) factor block.now) sum.old }
    ensures codes { IsCode (F.meaning field.now) factor → Codes (F.meaning field.now) block.now → sum.new ≡ plus (operations (F.meaning field.now)) (scale (operations (F.meaning field.now)) factor block.now) sum.old }
{
    // By index: with a zip over `iter_mut`, tried, the proof did not close.
    for i in 0..sum.len() {
        sum[i] ^= field.product(factor, block[i]);
    }
}

/// Makes a block X times itself modulo X^v + f, where `modulus` has the v low coefficients f.
pub fn multiply_by_x<F: Field>(field: &F, modulus: &[u8], block: &mut [u8])
    requires same { length block.old ≡ length modulus.now }
    requires some { 0 < length block.old }
    ensures bytes { block.new ≡ times_x (on_bytes (F.meaning field.now)) modulus.now block.old }
    ensures codes { Codes (F.meaning field.now) block.old → Codes (F.meaning field.now) modulus.now → block.new ≡ times_x (operations (F.meaning field.now)) modulus.now block.old }
{
    let top = block[block.len() - 1];
    block.rotate_right(1);
    block[0] = 0;
    add_multiple(field, top, modulus, block);
}
