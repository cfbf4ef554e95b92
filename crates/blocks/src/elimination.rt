//! Elimination by steps that change every row in one way, on rows to be made units and on rows that keep account of the steps.
ghost use Rattle.std.specs.Prelude.{◌≡◌, ℕ, ◌<◌, ◌≤◌, ◌≢◌, true, false, [], map, length, IfSome, MatchOption, slice_index_or, ⊤};
ghost use Rattle.algebra.specs.Affine.{Square as Squared, DecidesInverse};
ghost use Rattle.algebra.specs.Linear.{basis_from, shear_row};
ghost use Rattle.algebra.specs.Meaning.{Laws, on_bytes};
ghost use Rattle.blocks.specs.Elimination.{inverse_code, NoPivot, PivotAt, lead_step, pivot_step, RowReduced};

use crate::block::Block;
use crate::elimination_value::Elimination;
use crate::shear::Shear;
use crate::square::Square;
use field::Field;

// The first code below `last` that makes the one with `a`.
fn inverse_below<F: Field>(field: &F, a: u8, last: u8) -> Option<u8>
    ensures { MatchOption result ((b : ℕ) → b < last → (on_bytes (F.meaning field.now)).mul a b ≢ (F.meaning field.now).one) (λ b. (b < last) × ((on_bytes (F.meaning field.now)).mul a b ≡ (F.meaning field.now).one) × ((k : ℕ) → k < b → (on_bytes (F.meaning field.now)).mul a k ≢ (F.meaning field.now).one)) }
{
    let one = field.one();
    (0..last).find(|b| field.product(a, *b) == one)
}

// The code that makes the one with `a`. No option, which would be no plainer: over a sound field, where `a` is not 0 and none below the last does,
// the last does; elsewhere nothing is asked of it.
fn inverse_code<F: Field>(field: &F, a: u8) -> u8
    ensures { result ≡ inverse_code (F.meaning field.now) a }
{
    let last = field.largest_code();
    inverse_below(field, a, last).unwrap_or(last)
}

// The first place from k on where a row is not zero.
fn pivot_place(row: &[u8], k: usize) -> Option<usize>
    ensures { MatchOption result (NoPivot k row.now) (PivotAt k row.now) }
{
    (k..row.len()).find(|j| row[*j] != 0)
}

// A row's number k is below the number of rows: that relates two values, and a type that held both would name both in each clause.
// The field is passed beside: tried inside the value, a method that takes it and answers the next one did not prove.
// Rows are changed where they lie: answered as values, each row of elimination copied all of them some eighteen times.
impl Elimination {
    // Changes all rows.
    fn change<F: Field>(&mut self, field: &F, shear: &Shear)
        requires place { shear.now.place < length self.old.work }
        requires size { length shear.now.step ≡ length self.old.work }
        ensures work { self.new.work ≡ map (shear_row (on_bytes (F.meaning field.now)) shear.now.factor shear.now.place shear.now.step) self.old.work }
        ensures account { self.new.account ≡ map (shear_row (on_bytes (F.meaning field.now)) shear.now.factor shear.now.place shear.now.step) self.old.account }
    {
        shear.change(field, &mut self.work);
        shear.change(field, &mut self.account);
    }

    // Brings a pivot to place k: adds the element at the pivot's place there, in every row.
    fn lead<F: Field>(&mut self, field: &F, place: usize, k: usize)
        requires place { place < length self.old.work }
        requires row { k < length self.old.work }
        ensures work { self.new.work ≡ map (lead_step (F.meaning field.now) (length self.old.work) place k) self.old.work }
        ensures account { self.new.account ≡ map (lead_step (F.meaning field.now) (length self.old.work) place k) self.old.account }
    {
        if place == k {
            return;
        }
        let one = field.one();
        let step = Block::zeros(self.work.size()).with(k, one);
        self.change(
            field,
            &Shear {
                factor: one,
                place,
                step,
            },
        );
    }

    // Makes row k a unit by its pivot at place k, and changes every row so.
    fn clear<F: Field>(&mut self, field: &F, k: usize)
        requires { k < length self.old.work }
        ensures work { self.new.work ≡ map (pivot_step (F.meaning field.now) k (slice_index_or self.old.work k [])) self.old.work }
        ensures account { self.new.account ≡ map (pivot_step (F.meaning field.now) k (slice_index_or self.old.work k [])) self.old.account }
    {
        let pivot = self.work.as_slice()[k];
        let code = pivot.as_slice()[k];
        let factor = inverse_code(field, code);
        let step = pivot.with(k, code ^ field.one());
        self.change(
            field,
            &Shear {
                factor,
                place: k,
                step,
            },
        );
    }

    // One row of elimination, if row k has a pivot; else nothing is changed.
    fn reduce<F: Field>(&mut self, field: &F, k: usize) -> Option<()>
        requires { k < length self.old.work }
        ensures pivot { MatchOption result (NoPivot k (slice_index_or self.old.work k [])) (λ _. RowReduced (F.meaning field.now) k self.old.work self.old.account self.new.work self.new.account) }
        ensures stays { MatchOption result ((self.new.work ≡ self.old.work) × (self.new.account ≡ self.old.account)) (λ _. ⊤) }
    {
        let row = self.work.as_slice()[k];
        let place = pivot_place(row.as_slice(), k)?;
        self.lead(field, place, k);
        self.clear(field, k);
        Some(())
    }

    // What the account is when all rows are units, if they can be made so.
    fn account_of_all<F: Field>(self, field: &F) -> Option<Square>
        ensures size { IfSome result (λ account. length account ≡ length self.work) }
        ensures verdict { Laws (F.meaning field.now) → Squared (F.meaning field.now) (length self.work) self.work → self.account ≡ basis_from (on_bytes (F.meaning field.now)) (length self.work) 0 (length self.work) → MatchOption result (DecidesInverse (F.meaning field.now) (length self.work) self.work false []) (DecidesInverse (F.meaning field.now) (length self.work) self.work true) }
    {
        let mut state = self;
        // Each row is reduced in what the rows before made of all of them, so no iterator over rows fits; a `try_fold` over places is no plainer.
        for k in 0..state.work.size() {
            state.reduce(field, k)?;
        }
        Some(state.account)
    }
}

/// The rows of the inverse of a linear map on blocks of n codes, if it is one to one.
pub(crate) fn inverse_rows<F: Field>(field: &F, rows: &Square) -> Option<Square>
    ensures size { IfSome result (λ inverse. length inverse ≡ length rows.now) }
    ensures verdict { Laws (F.meaning field.now) → Squared (F.meaning field.now) (length rows.now) rows.now → MatchOption result (DecidesInverse (F.meaning field.now) (length rows.now) rows.now false []) (DecidesInverse (F.meaning field.now) (length rows.now) rows.now true) }
{
    let start = Elimination {
        work: *rows,
        account: Square::units(field, rows.size()),
    };
    start.account_of_all(field)
}
