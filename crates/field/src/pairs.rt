ghost use Rattle.std.specs.Prelude.{◌≡◌, ◌*◌, ◌%◌, ◌^◌, ◌<◌, ◌≤◌};
ghost use Rattle.algebra.specs.Meaning.{IsCode};
ghost use Rattle.algebra.specs.Tower.{tower_product, has_root};

use crate::interface::Field;

/// Pairs a + bZ of codes of a narrow field, where ZZ = Z + c.
#[derive(Drop)]
pub struct Pairs<'f, F: Field> {
    pub base: &'f F,
    pub width: u8,
    pub c: u8,
    ghost narrow: { width ≤ 4 },
    ghost measured: { width ≡ (F.meaning base.now).width },
    ghost element: { IsCode (F.meaning base.now) c },
}

impl<'f, F: Field> Pairs<'f, F> {
    /// The product of two pairs, by the products and sums of the field below, which takes the low bits of a byte.
    pub fn product(&self, x: u8, y: u8) -> u8
        ensures { let M = F.meaning self.now.base.now in result ≡ tower_product M self.now.c (x % 2 ^ (2 * M.width)) (y % 2 ^ (2 * M.width)) }
    {
        let (a, b) = (x, x >> self.width);
        let (d, e) = (y, y >> self.width);
        let be = self.base.product(b, e);
        let low = self.base.product(a, d) ^ self.base.product(be, self.c);
        let high = self.base.product(a, e) ^ self.base.product(b, d) ^ be;
        low | (high << self.width)
    }

    /// Whether some code r of the field below has rr + r = c.
    pub fn has_root(&self) -> bool
        ensures { result ≡ has_root (F.meaning self.now.base.now) self.now.c }
    {
        (0..1u8 << self.width).any(|r| self.base.product(r, r) ^ r == self.c)
    }
}
