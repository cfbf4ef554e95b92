use thiserror::Error;

/// Why a text names no field.
#[derive(Clone, Copy, Debug, PartialEq, Eq, Error)]
pub enum Misnamed {
    #[error("a field is a `shift`, a `table` or a `tower`")]
    UnknownMake,
    #[error("`shift` takes a number of 32 bits")]
    ShiftNumber,
    #[error("`table` takes two numbers of 32 bits")]
    TableNumbers,
    #[error("`tower` takes a number of 32 bits and a field")]
    TowerNumber,
    #[error("at most three towers stand on a field")]
    TooManyTowers,
}
