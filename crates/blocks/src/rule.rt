//! The rule for a modulus: X raised to q^v leaves X.
ghost use Rattle.blocks.specs.Moduli.{RuleVerdict};

use crate::chain::raise_repeatedly;
use crate::modular_value::Modular;
use crate::modulus_value::Modulus;
use field::Field;

/// Whether a modulus that was made over this field follows the rule: the q-th power, taken v times over, leaves X.
pub fn follows_rule<F: Field>(field: &F, modulus: &Modulus) -> bool
    ensures { RuleVerdict (F.meaning field.now) modulus.now result }
{
    let blocks = Modular { field, modulus };
    let x = blocks.quotient().x();
    raise_repeatedly(&blocks, modulus.size, x) == x
}
