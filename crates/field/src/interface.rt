ghost use Rattle.std.specs.Prelude.{◌≡◌, ◌-◌, ◌^◌, true};
ghost use Rattle.algebra.specs.Meaning.{Meaning, Shape, Laws, as_code};

/// A field is whatever answers four questions; answering changes nothing.
/// A field that calls itself sound vouches for the laws; one that does not is still bound to its meaning.
pub trait Field {
    ghost meaning: { Self → Meaning };

    /// How many bits a code has.
    fn width(&self) -> u8
        ensures { result ≡ (meaning self.now).width };

    /// The code of the one, which need not be 1.
    fn one(&self) -> u8
        ensures { result ≡ (meaning self.now).one };

    /// The product of two codes; of a byte the low bits count.
    fn product(&self, a: u8, b: u8) -> u8
        ensures { result ≡ (meaning self.now).product (as_code (meaning self.now) a) (as_code (meaning self.now) b) };

    /// Whether the laws of a field hold.
    fn sound(&self) -> bool
        ensures { result ≡ (meaning self.now).sound };

    /// The largest code: its bits are those that count of a byte.
    final fn largest_code(&self) -> u8
        ensures { result ≡ 2 ^ (meaning self.now).width - 1 }
    {
        ((1u16 << self.width()) - 1) as u8
    }

    ghost shape: { (x : Self) → Shape (meaning x) };

    ghost laws: { (x : Self) → (meaning x).sound ≡ true → Laws (meaning x) };
}
