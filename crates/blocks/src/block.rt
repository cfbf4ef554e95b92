//! Blocks.
ghost use Rattle.std.specs.Prelude.{◌≡◌, ◌<◌, ◌≤◌, length, take, replicate, slice_set};
ghost use Rattle.algebra.specs.Meaning.{on_bytes};
ghost use Rattle.algebra.specs.Tuples.{plus, scale};
ghost use Rattle.blocks.specs.Rooms.{in_room};

use crate::tuples::add_multiple;
use field::Field;
use std::marker::Model;

/// The most codes that a block has.
pub const WIDEST: usize = 32;

/// A block of at most 32 bytes. It is seen as the list of them; behind them its room holds zeros.
// No heap, so its length stands beside its room; in clauses it is the list.
#[derive(Clone, Copy, PartialEq, Eq, Debug)]
pub struct Block {
    pub(crate) size: usize,
    pub(crate) room: [u8; WIDEST],
}

impl Model for Block {
    ghost use Rattle.std.specs.Prelude.{List, ℕ, take, length};
    ghost use Rattle.blocks.specs.Rooms.{Fills, in_room};

    ghost Value = { List ℕ };

    ghost view = { λ b. take b.size b.room };

    ghost invariant = { λ b. Fills b.size b.room };

    ghost inverse = { λ bytes. record { size = length bytes; room = in_room bytes } };

    ghost inverse_ok = { λ b fills i. record { size = fills.whole i; room = fills.rest i } };
}

impl Block {
    // A size is a number up to 32 in four calls, and three answer one: a type for it would have each of them called with one made by a check.
    /// So many zeros.
    pub fn zeros(size: usize) -> Block
        requires { size ≤ 32 }
        ensures { result ≡ replicate size 0 }
    {
        Block {
            size,
            room: [0; WIDEST],
        }
    }

    /// These bytes.
    pub fn from_bytes(bytes: &[u8]) -> Block
        requires { length bytes.now ≤ 32 }
        ensures { result ≡ bytes.now }
    {
        // No heap: a room, of which the start counts.
        let mut room = [0u8; WIDEST];
        room[..bytes.len()].copy_from_slice(bytes);
        Block {
            size: bytes.len(),
            room,
        }
    }

    /// So many bytes at the start of a room.
    pub(crate) fn at_start(size: usize, room: &[u8; WIDEST]) -> Block
        requires { size ≤ 32 }
        ensures value { result ≡ take size room.now }
        ensures size { length result ≡ size }
    {
        Block::from_bytes(&room[..size])
    }

    /// How many bytes it has.
    pub fn size(&self) -> usize
        ensures value { result ≡ length self.now }
        ensures few { result ≤ 32 }
    {
        self.size
    }

    /// Its bytes.
    pub fn as_slice(&self) -> &[u8]
        ensures value { result.now ≡ self.now }
        ensures few { length self.now ≤ 32 }
    {
        let room = &self.room[..];
        &room[..self.size]
    }

    /// The room that it lies in.
    pub(crate) fn room(self) -> [u8; WIDEST]
        ensures { result ≡ in_room self }
    {
        self.room
    }

    /// Another byte at a place.
    pub(crate) fn with(self, place: usize, byte: u8) -> Block
        requires { place < length self }
        ensures { result ≡ slice_set self place byte }
    {
        let mut changed = self;
        changed.room[place] = byte;
        changed
    }

    /// The sum of itself and a multiple of another block of its size.
    pub(crate) fn plus_multiple<F: Field>(self, field: &F, factor: u8, other: Block) -> Block
        requires { length other ≡ length self }
        ensures value { result ≡ plus (on_bytes (F.meaning field.now)) (scale (on_bytes (F.meaning field.now)) factor other) self }
        ensures size { length result ≡ length self }
    {
        // A room beside: a call is lent no part of a block's own, so that what lies behind the block stays zeros.
        let mut room = self.room;
        let sum = &mut room[..self.size];
        add_multiple(field, factor, other.as_slice(), sum);
        Block {
            size: self.size,
            room,
        }
    }
}
