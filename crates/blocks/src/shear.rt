//! Steps of elimination that change every row in one way.
ghost use Rattle.std.specs.Prelude.{◌≡◌, ◌<◌, map, length};
ghost use Rattle.algebra.specs.Linear.{shear_row};
ghost use Rattle.algebra.specs.Meaning.{on_bytes};

use crate::block::Block;
use crate::square::Square;
use field::Field;

/// What a row gains: its element at a place, times a factor, times a block.
#[derive(Clone, Copy)]
pub(crate) struct Shear {
    pub(crate) factor: u8,
    pub(crate) place: usize,
    pub(crate) step: Block,
}

// That the place is in a row, and the step as long as one, relates the change to the rows that it is made of.
impl Shear {
    // One row after the change.
    fn row<F: Field>(&self, field: &F, row: Block) -> Block
        requires place { self.now.place < length row }
        requires size { length self.now.step ≡ length row }
        ensures value { result ≡ shear_row (on_bytes (F.meaning field.now)) self.now.factor self.now.place self.now.step row }
        ensures size { length result ≡ length row }
    {
        let multiple = field.product(self.factor, row.as_slice()[self.place]);
        row.plus_multiple(field, multiple, self.step)
    }

    /// Changes all rows.
    pub(crate) fn change<F: Field>(&self, field: &F, rows: &mut Square)
        requires place { self.now.place < length rows.old }
        requires size { length self.now.step ≡ length rows.old }
        ensures value { rows.new ≡ map (shear_row (on_bytes (F.meaning field.now)) self.now.factor self.now.place self.now.step) rows.old }
        ensures size { length rows.new ≡ length rows.old }
    {
        rows.change(|row| self.row(field, row));
    }
}
