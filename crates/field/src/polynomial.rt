//! Polynomials over two elements as numbers: bit i is the coefficient of X^i.
ghost use Rattle.std.specs.Prelude.{◌≡◌, ◌*◌, ◌^◌, ◌<◌, ◌≤◌, ◌&&◌, Some, None, if◌then◌else◌, option_map};
ghost use Rattle.algebra.specs.Tuples.{times};
ghost use Rattle.algebra.specs.Bits.{two, bits, number};
ghost use Rattle.algebra.specs.Shift.{in_range, degree, splits};
ghost use Rattle.field.specs.Division.{divides};

// The numbers whose highest bit has a position from 1 to 8.
const SMALLEST: u32 = 2;

const LARGEST: u32 = 511;

/// A polynomial of degree 1 to 8. Its width is its degree: how many bits a code modulo it has.
#[derive(Clone, Copy)]
pub struct Polynomial {
    pub coefficients: u32,
    pub width: u8,
    ghost low: { 2 ≤ coefficients },
    ghost high: { coefficients ≤ 511 },
    ghost measured: { width ≡ degree coefficients },
}

// `value` where the bit is set, else 0, with no branch.
fn select(bit: u32, value: u32) -> u32
    requires { bit < 2 }
    ensures { result ≡ bit * value }
{
    value & bit.wrapping_neg()
}

impl Polynomial {
    /// The polynomial of a number, if its degree is one from 1 to 8.
    pub fn of(number: u32) -> Option<Polynomial>
        ensures { option_map (λ p. p.coefficients) result ≡ (if in_range number then Some number else None) }
    {
        if number < SMALLEST || number > LARGEST {
            return None;
        }
        let width = number.ilog2();
        Some(Polynomial {
            coefficients: number,
            width: width as u8,
        })
    }

    /// `a` times `b` modulo this polynomial, from the highest of the `digits` low bits of `a` down.
    pub fn multiply(&self, a: u32, digits: u8, b: u32) -> u32
        requires few { digits ≤ 9 }
        requires code { b < 2 ^ self.now.width }
        ensures { result ≡ number (times two (bits self.now.width self.now.coefficients) (bits digits a) (bits self.now.width b)) }
    {
        let mut r = 0u32;
        // The bits of a number are no collection; a `fold` over their places is no plainer.
        for i in (0..digits).rev() {
            let doubled = r << 1;
            let reduced = doubled ^ select(doubled >> self.width, self.coefficients);
            r = reduced ^ select((a >> i) & 1, b);
        }
        r
    }

    // Whether this polynomial has a lower degree than `p` and divides it.
    fn divides(&self, p: &Polynomial) -> bool
        ensures { result ≡ divides self.now.coefficients p.now.coefficients }
    {
        self.width < p.width && self.multiply(p.coefficients, 9, 1) == 0
    }

    // Whether the number `d` is that of a polynomial of lower degree that divides this one.
    fn is_divided_by(&self, d: u32) -> bool
        ensures { result ≡ (in_range d && divides d self.now.coefficients) }
    {
        Polynomial::of(d).is_some_and(|d| d.divides(self))
    }

    /// Whether this polynomial is a product of two of lower degree; one of them then has degree 1 to 4.
    pub fn has_factor(&self) -> bool
        ensures { result ≡ splits self.now.coefficients }
    {
        (2..32u32).any(|d| self.is_divided_by(d))
    }
}
