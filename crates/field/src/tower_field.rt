ghost use Rattle.std.specs.Prelude.{◌≡◌, ◌<◌, MatchOption};
ghost use Rattle.algebra.specs.Meaning.{low_bits};
ghost use Rattle.algebra.specs.Tower.{tower};
ghost use Rattle.algebra.proofs.Tower.{tower_shape, tower_laws};

use crate::interface::Field;
use crate::pairs::Pairs;
use crate::tower_value::Tower;

// The widest field that a tower stands on.
const WIDEST: u8 = 4;

impl<F: Field> Tower<F> {
    /// The tower on any field with any number.
    pub fn new(base: F, c: u32) -> Tower<F>
        ensures base { result.base ≡ base }
        ensures c { result.c ≡ c }
    {
        Tower { base, c }
    }

    // Pairs of codes of the field below, if that is narrow enough; of the number c the low bits count.
    fn pairs(&self) -> Option<Pairs<'_, F>>
        ensures { MatchOption result (4 < (F.meaning self.now.base).width) (λ pairs. (pairs.base.now ≡ self.now.base) × (pairs.c ≡ low_bits (F.meaning pairs.base.now).width self.now.c)) }
    {
        let width = self.base.width();
        if width > WIDEST {
            return None;
        }
        Some(Pairs {
            base: &self.base,
            width,
            c: (self.c & ((1u32 << width) - 1)) as u8,
        })
    }
}

impl<F: Field> Field for Tower<F> {
    ghost meaning = { λ t. tower (F.Field.meaning t.base) t.c };

    ghost shape = { λ t. tower_shape (F.Field.meaning t.base) (F.Field.shape t.base) t.c };

    ghost laws = { λ t. tower_laws (F.Field.meaning t.base) (F.Field.shape t.base) t.c (F.Field.laws t.base) };

    fn width(&self) -> u8 {
        self.pairs().map_or(1, |pairs| 2 * pairs.width)
    }

    fn one(&self) -> u8 {
        self.pairs().map_or(1, |pairs| pairs.base.one())
    }

    fn product(&self, a: u8, b: u8) -> u8 {
        self.pairs().map_or(0, |pairs| pairs.product(a, b))
    }

    fn sound(&self) -> bool {
        self.pairs()
            .is_some_and(|pairs| pairs.base.sound() && !pairs.has_root())
    }
}
