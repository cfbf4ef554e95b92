//! What can be found out of a field by going through all its codes.
ghost use Rattle.std.specs.Prelude.{◌≡◌};
ghost use Rattle.algebra.specs.Meaning.{as_code};
ghost use Rattle.survey.specs.Codes.{has_inverse, invertible, period, longest_period};

use field::Field;

// Whether some code times `a` is one.
fn has_inverse<F: Field>(field: &F, a: u8) -> bool
    ensures { result ≡ has_inverse (F.meaning field.now) (as_code (F.meaning field.now) a) }
{
    let one = field.one();
    (0..=field.largest_code()).any(|b| field.product(a, b) == one)
}

// How many codes have an inverse.
pub fn invertible<F: Field>(field: &F) -> u16
    ensures { result ≡ invertible (F.meaning field.now) }
{
    (0..=field.largest_code())
        .filter(|&a| has_inverse(field, a))
        .count() as u16
}

// The smallest number of copies of `a`, from 1 up, whose product is one.
fn period<F: Field>(field: &F, a: u8) -> Option<u16>
    ensures { result ≡ period (F.meaning field.now) (as_code (F.meaning field.now) a) }
{
    let one = field.one();
    let mut x = one;
    // The count is what is answered, and each product takes the one before.
    for e in 1..=u16::from(field.largest_code()) + 1 {
        x = field.product(a, x);
        if x == one {
            return Some(e);
        }
    }
    None
}

// The largest period of a code, or 0 if none has one.
pub fn longest_period<F: Field>(field: &F) -> u16
    ensures { result ≡ longest_period (F.meaning field.now) }
{
    (0..=field.largest_code())
        .filter_map(|a| period(field, a))
        .max()
        // 0 where no code has one, as the survey prints it.
        .unwrap_or(0)
}
