//! The field that a text names.
ghost use Rattle.std.specs.Prelude.{◌≡◌, ◌+◌, ◌<◌, ◌≤◌, MatchResult};
ghost use Rattle.algebra.specs.Tower.{tower};
ghost use Rattle.named.specs.Makes.{storey};
ghost use Rattle.named.specs.Names.{Names, Misnames, height};

use crate::ground::Ground;
use crate::layer::{Layer, read_layer};
use crate::misnamed::Misnamed;
use crate::storey::Storey;
use field::{PowerTable, Shift, Tower};
use std::str::FromStr;

// How many towers a name may have.
const TOWERS: u8 = 3;

// One tower more.
fn raised(field: Storey, c: u32) -> Storey
    requires { height field < 3 }
    ensures meaning { storey result ≡ tower (storey field) c }
    ensures height { height result ≡ height field + 1 }
{
    match field {
        Storey::Zero(f) => Storey::One(Tower::new(f, c)),
        Storey::One(f) => Storey::Two(Tower::new(f, c)),
        Storey::Two(f) => Storey::Three(Tower::new(f, c)),
        Storey::Three(_) => unreachable!(),
    }
}

// The field that the text names with at most `room` towers.
#[tactic(auto, using(crate::specs::Names::of_shift, crate::specs::Names::of_table, crate::specs::Names::of_tower, crate::specs::Names::at_once))]
fn named_within(text: &str, room: u8) -> Result<Storey, Misnamed>
    requires { room ≤ 3 }
    ensures { MatchResult result (λ f. Names text.now (storey f) × (height f ≤ room)) (Misnames room text.now) }
{
    match read_layer(text)? {
        Layer::Shift(p) => Ok(Storey::Zero(Ground::OfShift(Shift::new(p)))),
        Layer::Table(p, g) => Ok(Storey::Zero(Ground::OfTable(PowerTable::new(p, g)))),
        Layer::Tower(c, below) => {
            if room == 0 {
                return Err(Misnamed::TooManyTowers);
            }
            Ok(raised(named_within(below, room - 1)?, c))
        }
    }
}

/// The field that a text names: `shift P`, `table P G`, or `tower C` and the name of the field below, with at most three towers.
impl FromStr for Storey {
    type Err = Misnamed;

    ghost from_str_gives = { λ text r. MatchResult r (λ f. Names text (storey f)) (Misnames 3 text) };

    fn from_str(text: &str) -> Result<Storey, Misnamed> {
        named_within(text, TOWERS)
    }
}

/// The field that a text names, as `text.parse::<Storey>()` answers it.
pub fn field_named(text: &str) -> Result<Storey, Misnamed>
    ensures { MatchResult result (λ f. Names text.now (storey f)) (Misnames 3 text.now) }
{
    text.parse()
}
