ghost use Rattle.std.specs.Prelude.{◌≡◌, ◌≤◌, length};
ghost use Rattle.blocks.specs.Rooms.{Fills};

use crate::block::WIDEST;

/// An affine map on blocks of n codes: n constants and n rows, each at the start of its room.
// Arrays and no `Block`: a struct that holds a value with a model is copied only where it has a model too, and a caller's own has none.
#[derive(Clone, Copy)]
pub struct AffineMap {
    pub(crate) size: usize,
    pub(crate) constants: [u8; WIDEST],
    pub(crate) rows: [[u8; WIDEST]; WIDEST],
    // `few` and `room` follow from `filled`; they are said for those who ask for no more.
    ghost few: { size ≤ 32 },
    ghost room: { length constants ≡ 32 },
    ghost tall: { length rows ≡ 32 },
    ghost filled: { Fills size constants },
}
