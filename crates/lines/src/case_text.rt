//! Cases as lines have them: the kind, and what it takes; the name of a field follows.
ghost use Rattle.std.specs.Prelude.{IfSome};
ghost use Rattle.lines.specs.CaseText.{FieldCaseThen, StepThen, BlockCaseThen, MapCaseThen, MapThen, CaseThen, Says};

use crate::case::{BlockCase, Case, FieldCase, MapCase, Step};
use crate::map_cases::made_map;
use crate::words::Words;
use blocks::{AffineMap, Block};

// The most bytes that a map has: constants and rows for blocks of 32 codes.
const MOST_CODES: usize = 1056;

/// The case that a line begins with, and the name of a field behind it.
pub fn read_line(line: &str) -> Option<(Case, &str)>
    ensures { IfSome result (λ x. Says line.now x.0 x.1.now) }
{
    let mut words = Words { rest: line };
    let kind = words.word()?;
    let case = read_case(kind, &mut words)?;
    Some((case, words.rest))
}

fn read_case(kind: &str, words: &mut Words) -> Option<Case>
    ensures { IfSome result (λ case. CaseThen kind.now words.old.rest.now case words.new.rest.now) }
{
    match kind {
        "rule" => Some(Case::Rule {
            modulus: words.block()?,
            kept: true,
        }),
        "no-rule" => Some(Case::Rule {
            modulus: words.block()?,
            kept: false,
        }),
        "apply" => Some(Case::Apply(read_map_case(words)?)),
        "solve" => Some(Case::Solve(read_map_case(words)?)),
        "singular" => Some(Case::Singular(read_singular(words)?)),
        "multiply" | "square" | "frobenius" | "forward" | "back" => {
            Some(Case::Blocks(read_block_case(kind, words)?))
        }
        _ => Some(Case::Field(read_field_case(kind, words)?)),
    }
}

/// A case of a field alone, of that kind.
pub fn read_field_case(kind: &str, words: &mut Words) -> Option<FieldCase>
    ensures { IfSome result (λ case. FieldCaseThen kind.now words.old.rest.now case words.new.rest.now) }
{
    match kind {
        "product" => Some(FieldCase::Product {
            a: words.byte()?,
            b: words.byte()?,
            product: words.byte()?,
        }),
        "width" => Some(FieldCase::Width(words.byte()?)),
        "one" => Some(FieldCase::One(words.byte()?)),
        "sound" => Some(FieldCase::Sound(true)),
        "unsound" => Some(FieldCase::Sound(false)),
        _ => None,
    }
}

fn read_map_case(words: &mut Words) -> Option<MapCase>
    ensures { IfSome result (λ case. MapCaseThen words.old.rest.now case words.new.rest.now) }
{
    let codes = words.bytes::<MOST_CODES>()?;
    let block = words.block()?;
    let image = words.block()?;
    let map = made_map(codes.as_slice(), block.size())?;
    Some(MapCase { map, block, image })
}

fn read_singular(words: &mut Words) -> Option<AffineMap>
    ensures { IfSome result (λ m. MapThen words.old.rest.now m words.new.rest.now) }
{
    let codes = words.bytes::<MOST_CODES>()?;
    let size = words.byte()?;
    made_map(codes.as_slice(), usize::from(size))
}

fn read_block_case(kind: &str, words: &mut Words) -> Option<BlockCase>
    ensures { IfSome result (λ case. BlockCaseThen kind.now words.old.rest.now case words.new.rest.now) }
{
    let (step, modulus) = read_step(kind, words)?;
    Some(BlockCase {
        step,
        modulus,
        block: words.block()?,
        result: words.block()?,
    })
}

// The step of that kind, and its modulus.
fn read_step(kind: &str, words: &mut Words) -> Option<(Step, Block)>
    ensures { IfSome result (λ x. StepThen kind.now words.old.rest.now x.0 x.1 words.new.rest.now) }
{
    match kind {
        "multiply" => {
            let modulus = words.block()?;
            let factor = words.block()?;
            Some((Step::Multiply(factor), modulus))
        }
        "square" => Some((Step::Square, words.block()?)),
        "frobenius" => Some((Step::Frobenius, words.block()?)),
        "forward" => Some((Step::Forward(words.byte()?), words.block()?)),
        "back" => {
            let l = words.byte()?;
            let t = words.byte()?;
            Some((Step::Back { l, t }, words.block()?))
        }
        _ => None,
    }
}
