//! What lines say.
use blocks::{AffineMap, Block};

/// What a line says of the field that it names.
#[derive(Clone, Copy)]
pub enum Case {
    Field(FieldCase),
    Rule { modulus: Block, kept: bool },
    Blocks(BlockCase),
    Apply(MapCase),
    Solve(MapCase),
    Singular(AffineMap),
}

/// What a line says of the field alone.
#[derive(Clone, Copy)]
pub enum FieldCase {
    Product { a: u8, b: u8, product: u8 },
    Width(u8),
    One(u8),
    Sound(bool),
}

/// What a step makes of a block modulo a polynomial.
#[derive(Clone, Copy)]
pub struct BlockCase {
    pub(crate) step: Step,
    pub(crate) modulus: Block,
    pub(crate) block: Block,
    pub(crate) result: Block,
}

/// What is done with a block. A line tells it in words, so it is a value: a closure made of a line would have to be boxed and handed out.
#[derive(Clone, Copy)]
pub enum Step {
    Multiply(Block),
    Square,
    Frobenius,
    Forward(u8),
    Back { l: u8, t: u8 },
}

/// An affine map, and a block that it should send to another.
#[derive(Clone, Copy)]
pub struct MapCase {
    pub(crate) map: AffineMap,
    pub(crate) block: Block,
    pub(crate) image: Block,
}
