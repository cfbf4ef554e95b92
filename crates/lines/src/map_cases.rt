//! Cases of affine maps, over any field.
ghost use Rattle.std.specs.Prelude.{◌≡◌, ◌+◌, ◌*◌, ◌≤◌, true, false, length, Some, IsSome, IfSome, Decides};
ghost use Rattle.algebra.specs.Affine.{OneToOne};
ghost use Rattle.blocks.specs.Maps.{size_of, image, MapCodes};
ghost use Rattle.lines.specs.Cases.{MapHolds, SolveHolds, SingularHolds};
ghost use Rattle.lines.specs.CaseText.{MapOf};

use crate::case::MapCase;
use blocks::{AffineMap, Block, WIDEST};
use field::Field;

/// Whether the map sends the block to the image; none where the sizes do not fit.
pub fn map_applies<F: Field>(field: &F, case: &MapCase) -> Option<bool>
    ensures value { IfSome result (λ b. Decides b (MapHolds (F.meaning field.now) case.now)) }
    ensures fits { length case.now.block ≡ size_of case.now.map → length case.now.image ≡ size_of case.now.map → IsSome result }
{
    sends(field, &case.map, case.block, case.image)
}

/// Whether the map is one to one, its inverse sends the image to the block, and the map sends it there again; none where the
/// sizes do not fit.
pub fn map_solves<F: Field>(field: &F, case: &MapCase) -> Option<bool>
    ensures value { result ≡ Some true → SolveHolds (F.meaning field.now) case.now }
    ensures fits { length case.now.block ≡ size_of case.now.map → length case.now.image ≡ size_of case.now.map → IsSome result }
{
    let Some(inverse) = case.map.inverse(field) else {
        return Some(false);
    };
    let back = sends(field, &inverse, case.image, case.block)?;
    let again = sends(field, &case.map, case.block, case.image)?;
    Some(back && again)
}

/// The map of these bytes, if there are as many as it has on blocks of that size.
pub fn made_map(codes: &[u8], size: usize) -> Option<AffineMap>
    ensures map { IfSome result (MapOf codes.now size) }
    ensures fits { size ≤ 32 → length codes.now ≡ size * (size + 1) → IsSome result }
{
    let fits = size <= WIDEST && codes.len() == size * (size + 1);
    fits.then(|| AffineMap::from_codes(size, codes))
}

/// Whether the map is not one to one.
pub fn map_is_singular<F: Field>(field: &F, map: &AffineMap) -> bool
    ensures none { result ≡ true → SingularHolds (F.meaning field.now) map.now }
    ensures some { result ≡ false → (F.meaning field.now).sound ≡ true → MapCodes (F.meaning field.now) map.now → OneToOne (F.meaning field.now) (size_of map.now) (image (F.meaning field.now) map.now) }
{
    map.inverse(field).is_none()
}

// Whether the map sends one block to the other; none where it works on blocks of another size.
fn sends<F: Field>(field: &F, map: &AffineMap, block: Block, other: Block) -> Option<bool>
    ensures value { IfSome result (λ b. Decides b (image (F.meaning field.now) map.now block ≡ other)) }
    ensures fits { length block ≡ size_of map.now → length other ≡ size_of map.now → IsSome result }
{
    let fits = block.size() == map.size() && other.size() == map.size();
    fits.then(|| map.apply(field, block) == other)
}
