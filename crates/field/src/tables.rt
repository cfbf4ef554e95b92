//! The two tables of a power-table field: the powers, and where each code stands among them.
ghost use Rattle.std.specs.Prelude.{◌≡◌, ℕ, ◌+◌, ◌<◌, None, is_some, slice_index, slice_index_or, slice_range};
ghost use Rattle.std.specs.List.{list_all};
ghost use Rattle.algebra.specs.PowerTable.{entry};
ghost use Rattle.field.specs.Tables.{lowest};

use crate::residues::Residues;

/// As many powers of `generator`, of which the low bits count, as there are codes but 0.
pub fn powers_of(base: &Residues, generator: u32) -> [u8; 256]
    ensures { (k : ℕ) → k < base.now.mask → slice_index result k ≡ entry base.now.modulus.coefficients generator k }
{
    // To a wider number by `as`: with `From`, tried, proofs broke for no plainer text.
    let g = (generator & base.mask as u32) as u8;
    let mut powers = [0u8; 256];
    let mut x = 1u8;
    let places = &mut powers[..base.mask as usize];
    for power in places.iter_mut() {
        *power = x;
        x = base.product(g, x);
    }
    powers
}

/// For each byte but 0 the lowest of the first `places` places where it stands, if it stands at one; for 0 nothing.
pub fn lowest_places(powers: &[u8; 256], places: u8) -> [Option<u8>; 256]
    ensures zero { slice_index_or result 0 None ≡ None }
    ensures lowest { (a : ℕ) → 0 < a → a < 256 → slice_index_or result a None ≡ lowest powers.now places a }
{
    let mut logs = [None; 256];
    // By place: the place is what is written, as a byte, and an `enumerate` would count in another type.
    for k in (0..places).rev() {
        logs[powers[k as usize] as usize] = Some(k);
    }
    logs[0] = None;
    logs
}

/// Whether every byte from 1 to `places` stands somewhere.
pub fn all_stand(logs: &[Option<u8>; 256], places: u8) -> bool
    ensures { result ≡ list_all is_some (slice_range logs.now 1 (places + 1)) }
{
    logs[1..=places as usize].iter().all(Option::is_some)
}
