//! The first word of a field's name, and the numbers behind it.
ghost use Rattle.std.specs.Prelude.{MatchResult};
ghost use Rattle.named.specs.Layers.{Says, Faulty};

use crate::misnamed::Misnamed;
use crate::numbers::{number, number_and_rest, two_numbers};

/// What a name begins with; of a tower's name the rest names the field below.
#[derive(Clone, Copy)]
pub enum Layer<'a> {
    Shift(u32),
    Table(u32, u32),
    Tower(u32, &'a str),
}

/// The first word of a name, and what stands behind it; no `FromStr`, since a tower keeps the rest of the text.
pub fn read_layer(text: &str) -> Result<Layer<'_>, Misnamed>
    ensures { MatchResult result (Says text.now) (Faulty text.now) }
{
    if let Some(rest) = text.strip_prefix("shift ") {
        let p = number(rest).ok_or(Misnamed::ShiftNumber)?;
        Ok(Layer::Shift(p))
    } else if let Some(rest) = text.strip_prefix("table ") {
        let (p, g) = two_numbers(rest).ok_or(Misnamed::TableNumbers)?;
        Ok(Layer::Table(p, g))
    } else if let Some(rest) = text.strip_prefix("tower ") {
        let (c, below) = number_and_rest(rest).ok_or(Misnamed::TowerNumber)?;
        Ok(Layer::Tower(c, below))
    } else {
        Err(Misnamed::UnknownMake)
    }
}
