ghost use Rattle.std.specs.Prelude.{◌≡◌};
ghost use Rattle.lines.specs.Scaled.{scaled};
ghost use Rattle.lines.specs.ScaledLemmas.{scaled_shape, scaled_laws};

use crate::scaled_value::Scaled;
use field::Field;

impl<F: Field> Scaled<F> {
    /// The scaled field on any field; it is sound if that field is and the factor times the given one is its one.
    pub fn new(base: F, factor: u8, one: u8) -> Scaled<F>
        ensures base { result.base ≡ base }
        ensures factor { result.factor ≡ factor }
        ensures one { result.one ≡ one }
    {
        Scaled { base, factor, one }
    }
}

impl<F: Field> Field for Scaled<F> {
    ghost meaning = { λ s. scaled (F.Field.meaning s.base) s.factor s.one };

    ghost shape = { λ t. scaled_shape (F.Field.meaning t.base) (F.Field.shape t.base) t.factor t.one };

    ghost laws = { λ t. scaled_laws (F.Field.meaning t.base) (F.Field.shape t.base) t.factor t.one (F.Field.laws t.base) };

    #[tactic(auto, unfolding(crate::specs::Scaled::scaled))]
    fn width(&self) -> u8 {
        self.base.width()
    }

    fn one(&self) -> u8 {
        self.one & self.base.largest_code()
    }

    fn product(&self, a: u8, b: u8) -> u8 {
        self.base.product(self.base.product(a, b), self.factor)
    }

    fn sound(&self) -> bool {
        self.base.sound() && self.base.product(self.factor, self.one) == self.base.one()
    }
}
