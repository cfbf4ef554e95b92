//! Blocks modulo a monic polynomial.
ghost use Rattle.std.specs.Prelude.{◌≡◌, ◌≤◌, length};
ghost use Rattle.algebra.specs.Meaning.{on_bytes};
ghost use Rattle.algebra.specs.Modular.{variable, x_to_q, q_rows};
ghost use Rattle.algebra.specs.Tuples.{unit, times};
ghost use Rattle.blocks.specs.Rooms.{rows_in};

use crate::block::{Block, WIDEST};
use crate::product::multiply;
use crate::repeat::repeated;
use crate::tuples::multiply_by_x;
use field::Field;

/// What products modulo X^v + f take: a field, and the v coefficients f.
#[derive(Drop)]
pub(crate) struct Quotient<'f, F> {
    pub(crate) field: &'f F,
    pub(crate) low: Block,
    ghost some: { 1 ≤ length low },
}

// Each result has the size of `low`; a type for blocks of that size would have to name the quotient, as the clauses do.
impl<F: Field> Quotient<'_, F> {
    /// The product of two blocks.
    pub(crate) fn product(&self, a: Block, b: Block) -> Block
        requires { length b ≡ length self.now.low }
        ensures value { result ≡ times (on_bytes (F.meaning self.now.field.now)) self.now.low a b }
        ensures size { length result ≡ length self.now.low }
    {
        // No heap: a room, of which the start counts, for a call that writes to a slice.
        let size = b.size();
        let mut room = [0u8; WIDEST];
        let product = &mut room[..size];
        multiply(
            self.field,
            self.low.as_slice(),
            a.as_slice(),
            b.as_slice(),
            product,
        );
        Block { size, room }
    }

    /// The one.
    pub(crate) fn one(&self) -> Block
        ensures value { result ≡ unit (on_bytes (F.meaning self.now.field.now)) (length self.now.low) }
        ensures size { length result ≡ length self.now.low }
    {
        Block::zeros(self.low.size()).with(0, self.field.one())
    }

    /// X.
    pub(crate) fn x(&self) -> Block
        ensures value { result ≡ variable (on_bytes (F.meaning self.now.field.now)) self.now.low }
        ensures size { length result ≡ length self.now.low }
    {
        let one = self.one();
        // No heap: a room, of which the start counts, for a call that writes to a slice.
        let mut room = [0u8; WIDEST];
        let x = &mut room[..one.size()];
        x.copy_from_slice(one.as_slice());
        multiply_by_x(self.field, self.low.as_slice(), x);
        Block::from_bytes(x)
    }

    /// X^q: X squared as many times as a code has bits.
    fn x_to_q(&self) -> Block
        ensures value { result ≡ x_to_q (F.meaning self.now.field.now) self.now.low }
        ensures size { length result ≡ length self.now.low }
    {
        let width = usize::from(self.field.width());
        repeated(|power| self.product(power, power), width, self.x())
    }

    /// The rows of the q-th power, each at the start of a room: row i is the q-th power of X^i.
    pub(crate) fn q_rows(&self) -> [[u8; WIDEST]; WIDEST]
        ensures { rows_in (length self.now.low) result ≡ q_rows (F.meaning self.now.field.now) self.now.low }
    {
        let factor = self.x_to_q();
        let mut power = self.one();
        // No heap: rooms, of which the first count.
        let mut rooms = [[0u8; WIDEST]; WIDEST];
        let rows = &mut rooms[..self.low.size()];
        for row in rows.iter_mut() {
            *row = power.room();
            power = self.product(factor, power);
        }
        rooms
    }
}
