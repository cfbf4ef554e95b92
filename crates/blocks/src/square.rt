//! Squares of rows.
ghost use Rattle.std.specs.Prelude.{◌≡◌, ◌<◌, ◌≤◌, List, ℕ, map, length};
ghost use Rattle.algebra.specs.Linear.{basis_from};
ghost use Rattle.algebra.specs.Meaning.{on_bytes};
ghost use Rattle.blocks.specs.Rooms.{Even, rows_in};

use crate::block::{Block, WIDEST};
use field::Field;
use std::marker::Model;

/// At most 32 rows, each with as many bytes as there are rows. It is seen as the list of them; behind them lie empty rows.
// No heap, so the number of rows stands beside their rooms; in clauses it is the list. Not one type with `Block`: what lies behind differs, and
// so does what is asked of each element.
#[derive(Clone, Copy)]
pub struct Square {
    pub(crate) size: usize,
    pub(crate) rooms: [Block; WIDEST],
}

impl Model for Square {
    ghost use Rattle.std.specs.Prelude.{List, ℕ, take, length};
    ghost use Rattle.blocks.specs.Rooms.{FillsSquare, in_rooms};

    ghost Value = { List (List ℕ) };

    ghost view = { λ s. take s.size s.rooms };

    ghost invariant = { λ s. FillsSquare s.size s.rooms };

    ghost inverse = { λ rows. record { size = length rows; rooms = in_rooms rows } };

    ghost inverse_ok = { λ s fills i. record { size = fills.whole i; rooms = fills.rest i } };
}

impl Square {
    /// The rows of so many bytes at the start of their rooms.
    pub(crate) fn from_rooms(size: usize, rooms: &[[u8; WIDEST]; WIDEST]) -> Square
        requires { size ≤ 32 }
        ensures { result ≡ rows_in size rooms.now }
    {
        // No heap: blocks, of which the first count; those behind stay empty.
        let mut blocks = [Block::zeros(0); WIDEST];
        let rows = &mut blocks[..size];
        // By index, as in `units`.
        for i in 0..size {
            rows[i] = Block::at_start(size, &rooms[i]);
        }
        Square {
            size,
            rooms: blocks,
        }
    }

    /// Its rows, each at the start of a room.
    pub(crate) fn to_rooms(&self) -> [[u8; WIDEST]; WIDEST]
        ensures { rows_in (length self.now) result ≡ self.now }
    {
        let rows = self.as_slice();
        // No heap: rooms, of which the first count.
        let mut rooms = [[0u8; WIDEST]; WIDEST];
        // By index, as in `units`.
        for i in 0..rows.len() {
            rooms[i] = rows[i].room();
        }
        rooms
    }

    /// Its rows.
    pub(crate) fn as_slice(&self) -> &[Block]
        ensures value { result.now ≡ self.now }
        ensures few { length self.now ≤ 32 }
        ensures even { Even self.now }
    {
        let rooms = &self.rooms[..];
        &rooms[..self.size]
    }

    /// How many rows it has.
    pub(crate) fn size(&self) -> usize
        ensures value { result ≡ length self.now }
        ensures few { result ≤ 32 }
    {
        self.size
    }

    /// So many units: row i has one at place i and zeros elsewhere.
    pub(crate) fn units<F: Field>(field: &F, size: usize) -> Square
        requires { size ≤ 32 }
        ensures { result ≡ basis_from (on_bytes (F.meaning field.now)) size 0 size }
    {
        // No heap: rooms, of which the first count; those behind stay empty.
        let mut rooms = [Block::zeros(0); WIDEST];
        let rows = &mut rooms[..size];
        // By index: it is also where the one stands, and with an `enumerate` over `iter_mut`, tried, the proof did not close.
        for i in 0..size {
            rows[i] = Block::zeros(size).with(i, field.one());
        }
        Square { size, rooms }
    }

    /// Changes each row, which stays as long as before.
    pub(crate) fn change<C: Fn(Block) -> Block>(&mut self, change: C)
        requires callable { (row : List ℕ) → length row ≡ length self.old → C.pre change row }
        requires stays { (row r : List ℕ) → length row ≡ length self.old → C.post change row r → length r ≡ length self.old }
        ensures value { (f : List ℕ → List ℕ) → ((row r : List ℕ) → C.post change row r → r ≡ f row) → self.new ≡ map f self.old }
        ensures size { length self.new ≡ length self.old }
    {
        let rows = &mut self.rooms[..self.size];
        for row in rows.iter_mut() {
            *row = change(*row);
        }
    }
}
