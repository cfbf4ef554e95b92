//! What the program timing/timing.c calls. Each function does its work so many times over a field of the given number, and answers a byte that
//! depends on all of it.
#![tactic(auto)]

ghost use Rattle.std.specs.Prelude.{◌≡◌, ℕ, ◌<◌, List, length};
ghost use Rattle.blocks.specs.Maps.{size_of};
ghost use Rattle.blocks.specs.Moduli.{coefficients};

use blocks::{AffineMap, Block, BlockArithmetic, Modular, Modulus, raise_back, raise_forward};
use field::{Field, PowerTable, Shift, Tower};

// X^31 + X^3 + 1, which follows the rule over every sound field whose one is 1.
const LOW: [u8; 31] = [
    1, 0, 0, 1, 0, 0, 0, 0, 0, 0, 0, 0, 0, 0, 0, 0, 0, 0, 0, 0, 0, 0, 0, 0, 0, 0, 0, 0, 0, 0, 0,
];

// A block to begin with.
const START: [u8; 32] = [
    7, 1, 2, 3, 4, 5, 6, 7, 8, 9, 10, 11, 12, 13, 14, 15, 16, 17, 18, 19, 20, 21, 22, 23, 24, 25,
    26, 27, 28, 29, 30, 31,
];

fn products<F: Field>(field: &F, rounds: u32) -> u8 {
    (0..rounds).fold(1, |x, i| field.product(x, 83) ^ (i & 255) as u8)
}

#[unsafe(no_mangle)]
pub extern "C" fn rattle_shift(number: u32, rounds: u32) -> u8 {
    products(&Shift::new(number), rounds)
}

#[unsafe(no_mangle)]
pub extern "C" fn rattle_table(number: u32, rounds: u32) -> u8 {
    products(&PowerTable::new(number, 3), rounds)
}

#[unsafe(no_mangle)]
pub extern "C" fn rattle_tower(number: u32, rounds: u32) -> u8 {
    products(&Tower::new(Shift::new(number), 8), rounds)
}

// The first byte of a block of 31 codes after so many steps.
fn worked<S: Fn(&Modular<'_, '_, Shift>, Block) -> Block>(number: u32, rounds: u32, step: S) -> u8
    requires callable { (blocks : _) (x : List ℕ) → length (coefficients blocks.now.modulus.now) ≡ 31 → length x ≡ 31 → S.pre step blocks x }
    requires stays { (blocks : _) (x r : List ℕ) → length (coefficients blocks.now.modulus.now) ≡ 31 → S.post step blocks x r → length r ≡ 31 }
{
    let field = Shift::new(number);
    let modulus = Modulus::new(&field, &LOW);
    let blocks = Modular {
        field: &field,
        modulus: &modulus,
    };
    let start = START;
    let mut block = Block::from_bytes(&start[..31]);
    for _ in 0..rounds {
        block = step(&blocks, block);
    }
    block.as_slice()[0]
}

#[unsafe(no_mangle)]
pub extern "C" fn rattle_multiply(number: u32, rounds: u32) -> u8 {
    let start = START;
    let factor = Block::from_bytes(&start[..31]);
    worked(number, rounds, |blocks, x| blocks.multiply(factor, x))
}

#[unsafe(no_mangle)]
pub extern "C" fn rattle_raise_to_q(number: u32, rounds: u32) -> u8 {
    worked(number, rounds, |blocks, x| blocks.raise_to_q(x))
}

#[unsafe(no_mangle)]
pub extern "C" fn rattle_forward(number: u32, rounds: u32) -> u8 {
    worked(number, rounds, |blocks, x| raise_forward(blocks, 15, x))
}

#[unsafe(no_mangle)]
pub extern "C" fn rattle_back(number: u32, rounds: u32) -> u8 {
    worked(number, rounds, |blocks, x| raise_back(blocks, 15, 15, x))
}

// Bytes of a simple sequence.
fn fill(seed: u32, bytes: &mut [u8]) {
    let mut x = seed;
    for byte in bytes.iter_mut() {
        x = x.wrapping_mul(1664525).wrapping_add(1013904223);
        *byte = (x >> 24) as u8;
    }
}

// A map on 32 codes.
fn some_map(seed: u32) -> AffineMap
    ensures { size_of result ≡ 32 }
{
    let mut codes = [0u8; 1056];
    fill(seed, &mut codes);
    AffineMap::from_codes(32, &codes)
}

// Image after image.
#[unsafe(no_mangle)]
pub extern "C" fn rattle_apply(number: u32, rounds: u32) -> u8 {
    let field = Shift::new(number);
    let map = some_map(1);
    let mut block = Block::from_bytes(&START);
    for _ in 0..rounds {
        block = map.apply(&field, block);
    }
    block.as_slice()[0]
}

// Whether an odd number of maps have inverses.
#[unsafe(no_mangle)]
pub extern "C" fn rattle_invert(number: u32, rounds: u32) -> u8 {
    let field = Shift::new(number);
    let found = (0..rounds)
        .filter(|seed| some_map(*seed).inverse(&field).is_some())
        .count();
    (found & 1) as u8
}
