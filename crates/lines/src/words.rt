//! The words of a line, from the left.
ghost use Rattle.std.specs.Prelude.{◌≡◌, ◌==◌, length, IfSome, MatchOption};
ghost use Rattle.std.specs.List.{position_or_len};
ghost use Rattle.lines.specs.Words.{WordThen, ByteThen, BytesThen, BlockThen};

use crate::block_text::{read_block, read_byte, read_bytes};
use arrayvec::ArrayVec;
use blocks::Block;

/// What of a line is still to be read.
#[derive(Clone, Copy)]
pub struct Words<'a> {
    pub(crate) rest: &'a str,
}

impl<'a> Words<'a> {
    /// The text before the first space; none where there is no space.
    pub fn word(&mut self) -> Option<&'a str>
        ensures { MatchOption result (position_or_len (λ b. b == 32) self.old.rest.now ≡ length self.old.rest.now) (λ w. WordThen self.old.rest.now w.now self.new.rest.now) }
    {
        let (first, rest) = self.rest.split_once(' ')?;
        self.rest = rest;
        Some(first)
    }

    /// The next word as a byte.
    pub fn byte(&mut self) -> Option<u8>
        ensures { IfSome result (λ n. ByteThen self.old.rest.now n self.new.rest.now) }
    {
        read_byte(self.word()?)
    }

    /// The next word as a block.
    pub fn block(&mut self) -> Option<Block>
        ensures { IfSome result (λ b. BlockThen self.old.rest.now b self.new.rest.now) }
    {
        read_block(self.word()?)
    }

    /// The next word as at most N bytes.
    pub fn bytes<const N: usize>(&mut self) -> Option<ArrayVec<u8, N>>
        ensures { IfSome result (λ v. BytesThen self.old.rest.now v.items self.new.rest.now) }
    {
        read_bytes(self.word()?)
    }
}
