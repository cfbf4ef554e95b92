ghost use Rattle.std.specs.Prelude.{◌≡◌, Some, None, if◌then◌else◌, option_map};
ghost use Rattle.algebra.specs.Shift.{in_range};

use crate::residues::Residues;

/// The shift field of a number p: polynomials over two elements modulo the polynomial whose coefficients are the bits of p.
/// It keeps what every product needs; nothing where p makes no field.
#[derive(Clone, Copy)]
pub struct Shift {
    pub(crate) number: u32,
    pub(crate) residues: Option<Residues>,
    ghost made: { option_map (λ r. r.modulus.coefficients) residues ≡ (if in_range number then Some number else None) },
}
