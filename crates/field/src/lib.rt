//! Fields of up to 256 elements: what a field is, and the makes of it.
#![tactic(auto)]

mod interface;
mod logarithms;
mod pairs;
mod polynomial;
mod power_table_field;
mod power_table_value;
mod residues;
mod shift_field;
mod shift_value;
mod standard;
mod tables;
mod tower_field;
mod tower_value;

pub use interface::Field;
pub use power_table_value::PowerTable;
pub use shift_value::Shift;
pub use standard::standard_polynomial;
pub use tower_value::Tower;
