//! Bytes and blocks as texts.
ghost use Rattle.std.specs.Prelude.{ℕ, ◌≤◌, length, IfSome, MatchOption};
ghost use Rattle.lines.specs.BlockText.{ReadsByte, ReadsBlock};

use arrayvec::ArrayVec;
use blocks::{Block, WIDEST};

/// The byte that the text is.
// As with numbers of 32 bits in `named`, one call of `parse`: a generic one would be no plainer.
pub fn read_byte(text: &str) -> Option<u8>
    ensures { MatchOption result ((n : ℕ) → ReadsByte text.now n → ⊥) (λ n. ReadsByte text.now n) }
{
    text.parse().ok()
}

/// The bytes that the text is, parted by commas; none where it is no such text, or has more than N of them.
pub fn read_bytes<const N: usize>(text: &str) -> Option<ArrayVec<u8, N>>
    ensures bytes { IfSome result (λ v. ReadsBlock text.now v.items) }
    ensures few { IfSome result (λ v. length v.items ≤ N) }
{
    let mut bytes = ArrayVec::new();
    for part in text.split(',') {
        bytes.try_push(read_byte(part)?).ok()?;
    }
    Some(bytes)
}

/// The block that the text is: 1 to 32 bytes, parted by commas.
// No `FromStr`: trait and type are both of other crates.
pub fn read_block(text: &str) -> Option<Block>
    ensures bytes { IfSome result (λ b. ReadsBlock text.now b) }
    ensures some { IfSome result (λ b. 1 ≤ length b) }
{
    let bytes = read_bytes::<WIDEST>(text)?;
    if bytes.is_empty() {
        return None;
    }
    Some(Block::from_bytes(bytes.as_slice()))
}
