ghost use Rattle.std.specs.Prelude.{◌≡◌, ◌≤◌, length};
ghost use Rattle.blocks.specs.Rooms.{Fills};

use crate::block::WIDEST;

/// A modulus X^v + f over some field: the v coefficients f, and what is worked out for them once, the rows of the q-th power, each at the start of its
/// room.
// Arrays and no `Block`, as in `AffineMap`.
#[derive(Clone, Copy)]
pub struct Modulus {
    pub(crate) size: usize,
    pub(crate) low: [u8; WIDEST],
    pub(crate) rows: [[u8; WIDEST]; WIDEST],
    ghost some: { 1 ≤ size },
    // `few` and `room` follow from `filled`; they are said for those who ask for no more.
    ghost few: { size ≤ 32 },
    ghost room: { length low ≡ 32 },
    ghost tall: { length rows ≡ 32 },
    ghost filled: { Fills size low },
}
