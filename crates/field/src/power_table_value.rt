ghost use Rattle.std.specs.Prelude.{◌≡◌, ℕ, Some, None, if◌then◌else◌, option_map};
ghost use Rattle.algebra.specs.Shift.{in_range};

use crate::logarithms::Logarithms;

/// The power-table field of two numbers p and g: products by logarithms in the table of the powers of g under the shift product of p.
/// The tables are worked out once, when it is made; there are none where p makes no field.
#[derive(Clone, Copy)]
pub struct PowerTable {
    pub(crate) number: u32,
    pub(crate) generator: u32,
    pub(crate) logarithms: Option<Logarithms>,
    ghost made: { option_map {U = ℕ × ℕ} (λ l. (l.base.modulus.coefficients, l.generator)) logarithms ≡ (if in_range number then Some (number, generator) else None) },
}
