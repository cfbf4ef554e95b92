ghost use Rattle.std.specs.Prelude.{◌≡◌};
ghost use Rattle.algebra.specs.PowerTable.{power_table};
ghost use Rattle.algebra.proofs.PowerTable.{power_table_shape, power_table_laws};

use crate::interface::Field;
use crate::logarithms::Logarithms;
use crate::power_table_value::PowerTable;
use crate::residues::Residues;

impl Field for PowerTable {
    ghost meaning = { λ t. power_table t.number t.generator };

    ghost shape = { λ t. power_table_shape t.number t.generator };

    ghost laws = { λ t. power_table_laws t.number t.generator };

    fn width(&self) -> u8 {
        self.logarithms.as_ref().map_or(1, |l| l.base.modulus.width)
    }

    fn one(&self) -> u8 {
        1
    }

    fn product(&self, a: u8, b: u8) -> u8 {
        self.logarithms.as_ref().map_or(0, |l| l.product(a, b))
    }

    fn sound(&self) -> bool {
        self.logarithms.as_ref().is_some_and(|l| l.sound)
    }
}

impl PowerTable {
    /// The power-table field of any two numbers.
    pub fn new(number: u32, generator: u32) -> PowerTable
        ensures number { result.number ≡ number }
        ensures generator { result.generator ≡ generator }
    {
        PowerTable {
            number,
            generator,
            logarithms: Residues::of(number).map(|base| Logarithms::of(base, generator)),
        }
    }
}
