//! Lines that say what the library should answer, and whether it does.
#![tactic(auto)]

mod block_cases;
mod block_text;
mod case;
mod case_text;
mod cases;
mod counts;
mod field_cases;
mod map_cases;
mod scaled_field;
mod scaled_value;
mod words;

pub use cases::{field_line_holds, line_holds};
pub use counts::tally;
pub use scaled_value::Scaled;
