//! What the survey has to say of a field, whatever its make.
ghost use Rattle.std.specs.Prelude.{◌≡◌, ◌-◌, ◌^◌, true};
ghost use Rattle.survey.specs.Codes.{invertible};
ghost use Rattle.survey.specs.Findings.{findings};

use crate::codes::{invertible, longest_period};
use field::Field;
use std::fmt;

/// What came of going through all codes of a sound field.
#[derive(Clone, Copy, Debug, PartialEq, Eq)]
pub struct Checked {
    pub invertible: u16,
    pub longest: u16,
}

/// A field's width, its one and, if it is sound, what came of going through its codes.
#[derive(Clone, Copy, Debug, PartialEq, Eq)]
pub struct Findings {
    pub width: u8,
    pub one: u8,
    pub checked: Option<Checked>,
}

/// In a sound field every code but 0 has an inverse.
pub fn look_at<F: Field>(field: &F) -> Findings
    ensures value { result ≡ findings (F.meaning field.now) }
    ensures inverses { (F.meaning field.now).sound ≡ true → invertible (F.meaning field.now) ≡ 2 ^ (F.meaning field.now).width - 1 }
{
    Findings {
        width: field.width(),
        one: field.one(),
        checked: field.sound().then(|| Checked {
            invertible: invertible(field),
            longest: longest_period(field),
        }),
    }
}

impl fmt::Display for Findings {
    fn fmt<W: fmt::Write>(&self, f: &mut fmt::Formatter<W>) -> fmt::Result {
        write!(f, "width {}, one {}, ", self.width, self.one)?;
        match self.checked {
            Some(
                Checked {
                    invertible,
                    longest,
                },
            ) => write!(
                f,
                "sound, codes with an inverse {invertible}, largest period {longest}"
            ),
            None => write!(f, "not sound"),
        }
    }
}
