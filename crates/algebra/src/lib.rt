//! Mathematics that the other crates stand on: operations on any carrier, tuples, products modulo a polynomial, and the fields that are
//! made of them. There is no program here: a function of this crate does nothing, and its contract is a theorem, which the check proves.
#![tactic(auto)]

ghost use Rattle.std.specs.Prelude.{List};
ghost use Rattle.algebra.specs.Alike.{SameOne, TableAlike};
ghost use Rattle.algebra.specs.Exponent.{InverseStands};
ghost use Rattle.algebra.specs.Operations.{Ops, Ring2};
ghost use Rattle.algebra.specs.Quotient.{Quotient, OnlyRemainder};
ghost use Rattle.algebra.specs.Shift.{ShiftRemainder};
ghost use Rattle.algebra.specs.Steps.{StepsUndo};

/// Modulo a monic polynomial, the tuples over a ring have a commutative, associative and distributive product, and a one.
pub fn quotient_stands<T>()
    ensures { (O : Ops T) → Ring2 O → (f : List T) → Quotient O f }
{}

/// That product is the remainder: no other tuple of its length differs from the plain product by a multiple of the modulus.
pub fn remainder_stands<T>()
    ensures { (O : Ops T) → Ring2 O → (f : List T) → OnlyRemainder O f }
{}

/// A product in the shift field of p is the only code that differs from the plain product by a multiple of p.
pub fn shift_remainder_stands()
    ensures { ShiftRemainder }
{}

/// A sound power-table field has the products of the shift field of its number.
pub fn table_alike_stands()
    ensures { TableAlike }
{}

/// Two sound fields with the same width and products have the same one.
pub fn same_one_stands()
    ensures { SameOne }
{}

/// The exponent that undoes 1 + q^t modulo q^v − 1 exists, is the only one below q^v − 1, and is what the closed formula leaves.
pub fn inverse_exponent_stands()
    ensures { InverseStands }
{}

/// In any such ring in which every element is its own q^v-th power, raising to 1 + q^t and to that exponent undo each other.
pub fn steps_undo_stands<T>()
    ensures { (O : Ops T) → Ring2 O → StepsUndo O }
{}
