ghost use Rattle.named.specs.Makes.{ground};
ghost use Rattle.named.specs.Standing.{ground_shape, ground_laws};

use crate::ground::Ground;
use field::Field;

// Each method has its match: the gate refuses to hand the field out as a `&dyn Field`, and with a closure that takes one the proof did not close.
impl Field for Ground {
    ghost meaning = { ground };

    ghost shape = { ground_shape };

    ghost laws = { ground_laws };

    fn width(&self) -> u8 {
        match self {
            Ground::OfShift(f) => f.width(),
            Ground::OfTable(f) => f.width(),
        }
    }

    fn one(&self) -> u8 {
        match self {
            Ground::OfShift(f) => f.one(),
            Ground::OfTable(f) => f.one(),
        }
    }

    fn product(&self, a: u8, b: u8) -> u8 {
        match self {
            Ground::OfShift(f) => f.product(a, b),
            Ground::OfTable(f) => f.product(a, b),
        }
    }

    fn sound(&self) -> bool {
        match self {
            Ground::OfShift(f) => f.sound(),
            Ground::OfTable(f) => f.sound(),
        }
    }
}
