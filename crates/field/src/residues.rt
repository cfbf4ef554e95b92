ghost use Rattle.std.specs.Prelude.{◌≡◌, ◌-◌, ◌^◌, Some, None, if◌then◌else◌, option_map};
ghost use Rattle.algebra.specs.Meaning.{as_code};
ghost use Rattle.algebra.specs.Shift.{in_range, shift};

use crate::polynomial::Polynomial;

/// A polynomial, the mask of a code modulo it, and whether products modulo it make a field.
#[derive(Clone, Copy)]
pub struct Residues {
    pub modulus: Polynomial,
    pub mask: u8,
    pub sound: bool,
    ghost masked: { mask ≡ 2 ^ modulus.width - 1 },
    ghost judged: { sound ≡ (shift modulus.coefficients).sound },
}

impl Residues {
    /// Those of the polynomial of a number, if its degree is one from 1 to 8.
    pub fn of(number: u32) -> Option<Residues>
        ensures { option_map (λ r. r.modulus.coefficients) result ≡ (if in_range number then Some number else None) }
    {
        let modulus = Polynomial::of(number)?;
        Some(Residues {
            modulus,
            mask: ((1u32 << modulus.width) - 1) as u8,
            sound: !modulus.has_factor(),
        })
    }

    /// The product of two codes; of a byte the low bits count.
    pub fn product(&self, a: u8, b: u8) -> u8
        ensures { let M = shift self.now.modulus.coefficients in result ≡ M.product (as_code M a) (as_code M b) }
    {
        // To a wider number by `as`: with `From`, tried, proofs broke for no plainer text.
        let a = (a & self.mask) as u32;
        let b = (b & self.mask) as u32;
        self.modulus.multiply(a, self.modulus.width, b) as u8
    }
}
