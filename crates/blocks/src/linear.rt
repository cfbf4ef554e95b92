//! Linear maps by their rows.
ghost use Rattle.std.specs.Prelude.{◌≡◌, length};
ghost use Rattle.algebra.specs.Linear.{combination};
ghost use Rattle.algebra.specs.Meaning.{on_bytes};
ghost use Rattle.blocks.specs.Rooms.{rows_in};

use crate::block::{Block, WIDEST};
use crate::tuples::add_multiple;
use field::Field;

/// The constants plus, for each factor, that factor times the row at its place.
pub(crate) fn combined<F: Field>(
    field: &F,
    constants: Block,
    rows: &[[u8; WIDEST]; WIDEST],
    factors: Block,
) -> Block
    ensures value { result ≡ combination (on_bytes (F.meaning field.now)) constants (rows_in (length constants) rows.now) factors }
    ensures size { length result ≡ length constants }
{
    let size = constants.size;
    // A room beside: a call is lent no part of a block's own, so that what lies behind the block stays zeros.
    let mut room = constants.room;
    let sum = &mut room[..size];
    for (row, factor) in rows[..size].iter().zip(factors.as_slice()) {
        add_multiple(field, *factor, &row[..size], sum);
    }
    Block { size, room }
}
