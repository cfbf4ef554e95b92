use crate::ground::Ground;
use field::Tower;

/// A field with up to three towers on it; a fourth would stand on a field of width 8.
#[derive(Clone, Copy)]
pub enum Storey {
    Zero(Ground),
    One(Tower<Ground>),
    Two(Tower<Tower<Ground>>),
    Three(Tower<Tower<Tower<Ground>>>),
}
