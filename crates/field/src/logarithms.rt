ghost use Rattle.std.specs.Prelude.{◌≡◌, ℕ, ◌+◌, ◌%◌, ◌<◌, ◌≤◌, None, IfSome, slice_index, slice_index_or};
ghost use Rattle.algebra.specs.Meaning.{as_code};
ghost use Rattle.algebra.specs.PowerTable.{entry, power_table};
ghost use Rattle.field.specs.Tables.{kept_log};

use crate::residues::Residues;
use crate::tables::{all_stand, lowest_places, powers_of};

/// The powers of a generator modulo a polynomial, and for each code its logarithm, if it has one.
/// The mask of the base is also the number of places where a logarithm is looked for.
#[derive(Clone, Copy)]
pub struct Logarithms {
    pub base: Residues,
    pub generator: u32,
    pub sound: bool,
    powers: [u8; 256],
    logs: [Option<u8>; 256],
    ghost judged: { sound ≡ (power_table base.modulus.coefficients generator).sound },
    ghost entries: { (k : ℕ) → k < base.mask → slice_index powers k ≡ entry base.modulus.coefficients generator k },
    ghost logarithms: { (a : ℕ) → a ≤ base.mask → slice_index_or logs a None ≡ kept_log base.modulus.coefficients generator a },
}

// The sum of two places of a table, counted round its end.
fn round(i: u8, j: u8, places: u8) -> usize
    requires first { i < places }
    requires second { j < places }
    ensures { result ≡ (i + j) % places }
{
    // To a wider number by `as`: with `From`, tried, proofs broke for no plainer text.
    let sum = i as usize + j as usize;
    if sum < places as usize {
        sum
    } else {
        sum - places as usize
    }
}

impl Logarithms {
    /// Those to the base of a generator, of which the low bits count.
    pub fn of(base: Residues, generator: u32) -> Logarithms
        ensures base { result.base ≡ base }
        ensures generator { result.generator ≡ generator }
    {
        let powers = powers_of(&base, generator);
        let logs = lowest_places(&powers, base.mask);
        Logarithms {
            base,
            generator,
            sound: all_stand(&logs, base.mask),
            powers,
            logs,
        }
    }

    // The logarithm of a code, if it has one; of a byte the low bits count.
    fn logarithm(&self, a: u8) -> Option<u8>
        ensures kept { let p = self.now.base.modulus.coefficients in let g = self.now.generator in result ≡ kept_log p g (as_code (power_table p g) a) }
        ensures place { IfSome result (λ i. i < self.now.base.mask) }
    {
        self.logs[(a & self.base.mask) as usize]
    }

    /// The product of two codes by their logarithms; of a byte the low bits count.
    pub fn product(&self, a: u8, b: u8) -> u8
        ensures { let M = power_table self.now.base.modulus.coefficients self.now.generator in result ≡ M.product (as_code M a) (as_code M b) }
    {
        let (i, j) = (self.logarithm(a), self.logarithm(b));
        let Some(i) = i else { return 0 };
        let Some(j) = j else { return 0 };
        self.powers[round(i, j, self.base.mask)]
    }
}
