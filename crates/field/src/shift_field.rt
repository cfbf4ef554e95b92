ghost use Rattle.std.specs.Prelude.{◌≡◌};
ghost use Rattle.algebra.specs.Shift.{shift};
ghost use Rattle.algebra.proofs.Shift.{shift_shape, shift_laws};

use crate::interface::Field;
use crate::residues::Residues;
use crate::shift_value::Shift;

impl Field for Shift {
    ghost meaning = { λ s. shift s.number };

    ghost shape = { λ s. shift_shape s.number };

    ghost laws = { λ s. shift_laws s.number };

    fn width(&self) -> u8 {
        self.residues.map_or(1, |r| r.modulus.width)
    }

    fn one(&self) -> u8 {
        1
    }

    fn product(&self, a: u8, b: u8) -> u8 {
        self.residues.as_ref().map_or(0, |r| r.product(a, b))
    }

    fn sound(&self) -> bool {
        self.residues.is_some_and(|r| r.sound)
    }
}

impl Shift {
    /// The shift field of any number.
    pub fn new(number: u32) -> Shift
        ensures { result.number ≡ number }
    {
        Shift {
            number,
            residues: Residues::of(number),
        }
    }
}
