//! Fields by their names: the field that a text such as `tower 1 table 19 2` names.
#![tactic(auto)]

mod ground;
mod ground_field;
mod layer;
mod misnamed;
mod name;
mod numbers;
mod storey;
mod storey_field;

pub use ground::Ground;
pub use misnamed::Misnamed;
pub use name::field_named;
pub use storey::Storey;
