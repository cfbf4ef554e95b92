//! Numbers in a text.
ghost use Rattle.std.specs.Prelude.{ℕ, List, MatchOption};
ghost use Rattle.named.specs.Numbers.{Reads, Begins, TwoNumbers};

// The number that the whole text is.
// One call of `parse`, as `read_byte` of `lines` is for bytes: a generic one would be no plainer.
pub fn number(text: &str) -> Option<u32>
    ensures { MatchOption result ((n : ℕ) → Reads text.now n → ⊥) (λ n. Reads text.now n) }
{
    text.parse().ok()
}

// The number before the first space, and what stands behind that.
pub fn number_and_rest(text: &str) -> Option<(u32, &str)>
    ensures { MatchOption result ((n : ℕ) (rest : List ℕ) → Begins text.now n rest → ⊥) (λ x. Begins text.now x.0 x.1.now) }
{
    let (first, rest) = text.split_once(' ')?;
    Some((number(first)?, rest))
}

// The two numbers around the first space.
pub fn two_numbers(text: &str) -> Option<(u32, u32)>
    ensures { MatchOption result ((p g : ℕ) → TwoNumbers text.now p g → ⊥) (λ x. TwoNumbers text.now x.0 x.1) }
{
    let (first, rest) = number_and_rest(text)?;
    Some((first, number(rest)?))
}
