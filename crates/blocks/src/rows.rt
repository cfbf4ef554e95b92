//! Rows in rooms.
ghost use Rattle.std.specs.Prelude.{◌≡◌, ◌*◌, ◌≤◌, length};
ghost use Rattle.blocks.specs.Rooms.{rows_in, parts};

use crate::block::{Block, WIDEST};

/// The rows of so many bytes that follow each other, each at the start of a room.
pub(crate) fn read_rows(size: usize, bytes: &[u8]) -> [[u8; WIDEST]; WIDEST]
    requires few { size ≤ 32 }
    requires bytes { length bytes.now ≡ size * size }
    ensures { rows_in size result ≡ parts size size bytes.now }
{
    // No heap: rooms, of which the first count.
    let mut rooms = [[0u8; WIDEST]; WIDEST];
    let rows = &mut rooms[..size];
    // By index, as in `Square::units`. Chunks of 0 are refused; where there are no rows there are no bytes either.
    for (i, row) in bytes.chunks_exact(size.max(1)).enumerate() {
        rows[i] = Block::from_bytes(row).room();
    }
    rooms
}
