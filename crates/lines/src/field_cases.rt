//! Cases of a field alone.
ghost use Rattle.std.specs.Prelude.{Decides};
ghost use Rattle.lines.specs.Cases.{FieldHolds};

use crate::case::FieldCase;
use field::Field;

/// Whether the field is as the case says.
pub fn field_case_holds<F: Field>(field: &F, case: &FieldCase) -> bool
    ensures { Decides result (FieldHolds (F.meaning field.now) case.now) }
{
    match *case {
        FieldCase::Product { a, b, product } => field.product(a, b) == product,
        FieldCase::Width(width) => field.width() == width,
        FieldCase::One(one) => field.one() == one,
        FieldCase::Sound(sound) => field.sound() == sound,
    }
}
