//! Arithmetic on blocks of codes over any field.
#![tactic(auto)]

mod affine;
mod affine_value;
mod arithmetic;
mod block;
mod chain;
mod elimination;
mod elimination_value;
mod laws;
mod linear;
mod modular;
mod modular_value;
mod modulus;
mod modulus_value;
mod product;
mod quotient;
mod repeat;
mod rows;
mod rule;
mod shear;
mod square;
mod steps;
mod tuples;

pub use affine_value::AffineMap;
pub use arithmetic::BlockArithmetic;
pub use block::{Block, WIDEST};
pub use laws::products_stand;
pub use modular_value::Modular;
pub use modulus_value::Modulus;
pub use product::multiply;
pub use rule::follows_rule;
pub use steps::{raise_back, raise_forward, steps_undo};
pub use tuples::{add_multiple, multiply_by_x};
