//! Affine maps on blocks: what they answer, whether they are one to one, and their inverses.
ghost use Rattle.std.specs.Prelude.{◌≡◌, ◌+◌, ◌*◌, ◌≤◌, true, length, take, drop, IfSome, MatchOption};
ghost use Rattle.algebra.specs.Affine.{OneToOne};
ghost use Rattle.blocks.specs.Maps.{size_of, constants_of, rows_of, image, MapCodes, UndoneBy};
ghost use Rattle.blocks.specs.Rooms.{parts};

use crate::affine_value::AffineMap;
use crate::block::Block;
use crate::elimination::inverse_rows;
use crate::linear::combined;
use crate::rows::read_rows;
use crate::square::Square;
use field::Field;

impl AffineMap {
    /// The map of n constants and then n rows of n codes.
    pub fn from_codes(size: usize, codes: &[u8]) -> AffineMap
        requires few { size ≤ 32 }
        requires codes { length codes.now ≡ size * (size + 1) }
        ensures size { size_of result ≡ size }
        ensures constants { constants_of result ≡ take size codes.now }
        ensures rows { rows_of result ≡ parts size size (drop size codes.now) }
    {
        let (constants, rows) = codes.split_at(size);
        let constants = Block::from_bytes(constants).room();
        let rows = read_rows(size, rows);
        AffineMap {
            size,
            constants,
            rows,
        }
    }

    /// How many codes its blocks have.
    pub fn size(&self) -> usize
        ensures value { result ≡ size_of self.now }
        ensures few { result ≤ 32 }
    {
        self.size
    }

    // Its constants.
    fn constants(&self) -> Block
        ensures value { result ≡ constants_of self.now }
        ensures size { length result ≡ size_of self.now }
    {
        Block {
            size: self.size,
            room: self.constants,
        }
    }

    /// The image of a block: the constants plus, for each i, the code at place i times row i.
    pub fn apply<F: Field>(&self, field: &F, block: Block) -> Block
        requires { length block ≡ size_of self.now }
        ensures value { result ≡ image (F.meaning field.now) self.now block }
        ensures size { length result ≡ size_of self.now }
    {
        combined(field, self.constants(), &self.rows, block)
    }

    /// The inverse of a map that is one to one; nothing for one that is not.
    pub fn inverse<F: Field>(&self, field: &F) -> Option<AffineMap>
        ensures size { IfSome result (λ i. size_of i ≡ size_of self.now) }
        ensures verdict { (F.meaning field.now).sound ≡ true → MapCodes (F.meaning field.now) self.now → MatchOption result (OneToOne (F.meaning field.now) (size_of self.now) (image (F.meaning field.now) self.now) → ⊥) (UndoneBy (F.meaning field.now) self.now) }
    {
        let square = Square::from_rooms(self.size, &self.rows);
        let rows = inverse_rows(field, &square)?.to_rooms();
        let zeros = Block::zeros(self.size);
        let constants = combined(field, zeros, &rows, self.constants()).room();
        Some(AffineMap {
            size: self.size,
            constants,
            rows,
        })
    }
}
