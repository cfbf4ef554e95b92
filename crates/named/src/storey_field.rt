ghost use Rattle.named.specs.Makes.{storey};
ghost use Rattle.named.specs.Standing.{storey_owed};

use crate::storey::Storey;
use field::Field;

// Each method has its match: the gate refuses to hand the field out as a `&dyn Field`, and with a closure that takes one the proof did not close.
impl Field for Storey {
    ghost meaning = { storey };

    ghost shape = { λ f. (storey_owed f).0 };

    ghost laws = { λ f. (storey_owed f).1 };

    fn width(&self) -> u8 {
        match self {
            Storey::Zero(f) => f.width(),
            Storey::One(f) => f.width(),
            Storey::Two(f) => f.width(),
            Storey::Three(f) => f.width(),
        }
    }

    fn one(&self) -> u8 {
        match self {
            Storey::Zero(f) => f.one(),
            Storey::One(f) => f.one(),
            Storey::Two(f) => f.one(),
            Storey::Three(f) => f.one(),
        }
    }

    fn product(&self, a: u8, b: u8) -> u8 {
        match self {
            Storey::Zero(f) => f.product(a, b),
            Storey::One(f) => f.product(a, b),
            Storey::Two(f) => f.product(a, b),
            Storey::Three(f) => f.product(a, b),
        }
    }

    fn sound(&self) -> bool {
        match self {
            Storey::Zero(f) => f.sound(),
            Storey::One(f) => f.sound(),
            Storey::Two(f) => f.sound(),
            Storey::Three(f) => f.sound(),
        }
    }
}
