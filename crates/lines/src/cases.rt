//! Tries a line: what it says should be what the library answers.
ghost use Rattle.std.specs.Prelude.{◌≡◌, ◌++◌, true, Some, IfSome, codes};
ghost use Rattle.named.specs.Makes.{storey};
ghost use Rattle.named.specs.Names.{Names};
ghost use Rattle.lines.specs.Cases.{Holds, NamesAny, FieldLineHolds, LineHolds};
ghost use Rattle.lines.specs.Scaled.{scaled};

use crate::block_cases::{block_case_holds, rule_kept};
use crate::case::Case;
use crate::case_text::{read_field_case, read_line};
use crate::field_cases::field_case_holds;
use crate::map_cases::{map_applies, map_is_singular, map_solves};
use crate::scaled_value::Scaled;
use crate::words::Words;
use field::Field;
use named::Storey;

/// Whether a line says of the field that it names what is so: `product A B R NAME`, `width W NAME`, `one O NAME`, `sound NAME` or
/// `unsound NAME`. No other line does.
pub fn field_line_holds(line: &str) -> bool
    ensures { result ≡ true → FieldLineHolds line.now }
{
    says_of_field(line) == Some(true)
}

/// Whether a line says what is so of a field, of blocks or of maps over it; the name of a field may say how it is scaled.
pub fn line_holds(line: &str) -> bool
    ensures { result ≡ true → LineHolds line.now }
{
    says(line) == Some(true)
}

fn says_of_field(line: &str) -> Option<bool>
    ensures { result ≡ Some true → FieldLineHolds line.now }
{
    // Cases of a field alone, which are small; a case of any kind has room for a map.
    let mut words = Words { rest: line };
    let kind = words.word()?;
    let case = read_field_case(kind, &mut words)?;
    Some(field_case_holds(&field_of(words.rest)?, &case))
}

fn says(line: &str) -> Option<bool>
    ensures { result ≡ Some true → LineHolds line.now }
{
    // Not by `?`: tried, and the proof did not close, since the borrow checker has no rule for it where a case and a borrowed text stand together.
    let Some((case, name)) = read_line(line) else {
        return None;
    };
    match name.strip_prefix("scaled ") {
        Some(rest) => case_holds(&scaled_named(rest)?, &case),
        None => case_holds(&field_of(name)?, &case),
    }
}

// The field that a text names.
fn field_of(text: &str) -> Option<Storey>
    ensures { IfSome result (λ f. Names text.now (storey f)) }
{
    text.parse().ok()
}

// A factor, a one, and the name of the field below.
fn scaled_named(text: &str) -> Option<Scaled<Storey>>
    ensures { IfSome result (λ f. NamesAny (codes "scaled " ++ text.now) (scaled (storey f.base) f.factor f.one)) }
{
    let mut words = Words { rest: text };
    let factor = words.byte()?;
    let one = words.byte()?;
    Some(Scaled::new(field_of(words.rest)?, factor, one))
}

fn case_holds<F: Field>(field: &F, case: &Case) -> Option<bool>
    ensures { result ≡ Some true → Holds (F.meaning field.now) case.now }
{
    match *case {
        Case::Field(case) => Some(field_case_holds(field, &case)),
        Case::Rule { modulus, kept } => Some(rule_kept(field, modulus)? == kept),
        Case::Blocks(case) => block_case_holds(field, &case),
        Case::Apply(case) => map_applies(field, &case),
        Case::Solve(case) => map_solves(field, &case),
        Case::Singular(map) => Some(map_is_singular(field, &map)),
    }
}
