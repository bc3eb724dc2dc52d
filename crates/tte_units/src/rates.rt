ghost use Rattle.std.specs.Prelude.{◌≡◌, ◌≤◌, ◌^◌, pos, ◌≤ℤ◌, unsigned_abs};
ghost use Rattle.tte_units.specs.Slip.{slip_of};

use crate::Units;

/// A clock's rate against world time, in parts per 10^9.
#[derive(Clone, Copy, PartialEq, Eq, PartialOrd, Ord)]
pub struct Ppb(pub i32);

/// How far two clocks of rates within `rho` parts per 10^9 drift apart while one of them goes on
/// by `v`, with the roundings of four readings of one unit each.
///
/// `rho` is at most 1,000,000, and `v` is from 0 to 2^42.
pub fn slip(rho: u32, v: Units) -> Units
    requires rate { rho ≤ 1000000 }
    requires low { pos 0 ≤ℤ v.0 }
    requires high { v.0 ≤ℤ pos (2 ^ 42) }
    ensures { result.0 ≡ pos (slip_of rho (unsigned_abs v.0)) }
{
    let drift = 2 * u64::from(rho) * v.0 as u64 / 1_000_000_000;
    Units(drift as i64 + 4)
}
