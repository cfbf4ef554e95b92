//! Cases of blocks, over any field.
ghost use Rattle.std.specs.Prelude.{◌≡◌, ◌<◌, ◌≤◌, ◌≢◌, [], length, IsSome, IfSome, MatchOption, Decides};
ghost use Rattle.algebra.specs.BlockSteps.{back_step};
ghost use Rattle.lines.specs.Cases.{RuleHolds, BlockHolds, ModulusOf, StepFits, stepped};

use crate::case::{BlockCase, Step};
use blocks::{Block, BlockArithmetic, Modular, Modulus, follows_rule, raise_back, raise_forward};
use field::Field;

/// Whether the modulus with these coefficients follows the rule; none where there are none.
pub fn rule_kept<F: Field>(field: &F, low: Block) -> Option<bool>
    ensures { MatchOption result (low ≡ []) (RuleHolds (F.meaning field.now) low) }
{
    Some(follows_rule(field, &made_modulus(field, low)?))
}

/// Whether the step has the result; none where the sizes or the numbers do not fit.
pub fn block_case_holds<F: Field>(field: &F, case: &BlockCase) -> Option<bool>
    ensures value { IfSome result (λ b. Decides b (BlockHolds (F.meaning field.now) case.now)) }
    ensures fits { case.now.modulus ≢ [] → length case.now.block ≡ length case.now.modulus → StepFits (length case.now.modulus) case.now.step → IsSome result }
{
    let modulus = made_modulus(field, case.modulus)?;
    let blocks = Modular {
        field,
        modulus: &modulus,
    };
    let block = taken(&blocks, &case.step, case.block)?;
    Some(block == case.result)
}

// The modulus with these coefficients, if there are any.
fn made_modulus<F: Field>(field: &F, low: Block) -> Option<Modulus>
    ensures { MatchOption result (low ≡ []) (ModulusOf (F.meaning field.now) low) }
{
    if low.size() == 0 {
        return None;
    }
    Some(Modulus::new(field, low.as_slice()))
}

// The block after the step.
fn taken<B: BlockArithmetic>(blocks: &B, step: &Step, block: Block) -> Option<Block>
    ensures value { IfSome result (λ r. r ≡ stepped (B.arithmetic blocks.now) step.now block) }
    ensures fits { length block ≡ (B.arithmetic blocks.now).size → StepFits (B.arithmetic blocks.now).size step.now → IsSome result }
{
    if block.size() != blocks.size() {
        return None;
    }
    match *step {
        Step::Multiply(factor) => {
            (factor.size() == blocks.size()).then(|| blocks.multiply(factor, block))
        }
        Step::Square => Some(blocks.square(block)),
        Step::Frobenius => Some(blocks.raise_to_q(block)),
        Step::Forward(t) => Some(raise_forward(blocks, usize::from(t), block)),
        Step::Back { l, t } => raised_back(blocks, usize::from(l), usize::from(t), block),
    }
}

// The block after a step back; none where l or t does not suit the size.
fn raised_back<B: BlockArithmetic>(blocks: &B, l: usize, t: usize, block: Block) -> Option<Block>
    requires { length block ≡ (B.arithmetic blocks.now).size }
    ensures value { IfSome result (λ r. r ≡ back_step (B.arithmetic blocks.now) l t block) }
    ensures fits { 1 ≤ l → 1 ≤ t → t < (B.arithmetic blocks.now).size → IsSome result }
{
    let fits = l > 0 && t > 0 && t < blocks.size();
    fits.then(|| raise_back(blocks, l, t, block))
}
