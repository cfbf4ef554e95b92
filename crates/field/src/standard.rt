//! A polynomial for each width.
ghost use Rattle.std.specs.Prelude.{◌≡◌, ◌<◌, true, IfSome};
ghost use Rattle.algebra.specs.Shift.{shift};
ghost use Rattle.field.specs.Standard.{standard};

// In the order of the widths, from 1 to 8.
const POLYNOMIALS: [u32; 8] = [2, 7, 11, 19, 37, 67, 131, 283];

/// The polynomial of a width from 1 to 8, whose shift field is sound; nothing for any other number.
pub fn standard_polynomial(width: u8) -> Option<u32>
    ensures value { result ≡ standard width }
    ensures sound { IfSome result (λ p. ((shift p).width ≡ width) × ((shift p).sound ≡ true)) }
{
    if width < 1 || width > 8 {
        return None;
    }
    // To a wider number by `as`: with `From`, tried, proofs broke for no plainer text.
    Some(POLYNOMIALS[width as usize - 1])
}
