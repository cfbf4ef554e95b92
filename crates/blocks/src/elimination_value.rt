ghost use Rattle.std.specs.Prelude.{◌≡◌, length};

use crate::square::Square;

/// Rows that are made units, one after the other, and as many rows that keep account of every change.
#[derive(Clone, Copy)]
pub(crate) struct Elimination {
    pub(crate) work: Square,
    pub(crate) account: Square,
    ghost alike: { length account ≡ length work },
}
