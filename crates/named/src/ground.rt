use field::{PowerTable, Shift};

/// A field that stands on no other.
#[derive(Clone, Copy)]
pub enum Ground {
    OfShift(Shift),
    OfTable(PowerTable),
}
