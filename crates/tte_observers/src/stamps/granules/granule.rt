ghost use Rattle.std.specs.Prelude.{◌≡◌, ◌↔◌, ◌<ℤ◌, ◌≤ℤ◌, ◌^◌, pos, neg_ℤ, IsNone, IfSome};
ghost use Rattle.net_plan.specs.Ranges.{IsWithin};
ghost use Rattle.tte_observers.specs.stamps.granules.Granules.{IsFloor, least_granule, stamp_of};

use schedule_tables::Accepted;
use std::marker::Model;
use tte_units::Units;

/// The least granule by which the devices of a network stamp events: four times the precision.
pub fn least(accepted: &Accepted) -> Units
    ensures value { result.0 ≡ pos (least_granule accepted.now) }
    ensures range { IsWithin 4 (2 ^ 42) result }
{
    Units(4 * accepted.network().precision.0)
}

/// A granule of global time.
#[derive(Clone, Copy)]
pub struct Granule {
    units: u64,
}

impl Model for Granule {
    ghost use Rattle.std.specs.Prelude.{ℕ, ◌≤◌, ◌<◌, ◌^◌};

    ghost Value = { ℕ };

    ghost view = { λ g. g.units };

    ghost invariant = { λ g. (4 ≤ g.units) × (g.units < 2 ^ 63) };

    ghost inverse = { λ n. record { units = n } };
}

impl Granule {
    /// A granule of so many units, or None where they are fewer than the least granule has.
    pub fn new(accepted: &Accepted, units: Units) -> Option<Granule>
        ensures refused { IsNone result ↔ (units.0 <ℤ pos (least_granule accepted.now)) }
        ensures granule { IfSome result (λ granule. pos granule ≡ units.0) }
    {
        if units.0 < least(accepted).0 {
            return None;
        }
        Some(Granule {
            units: units.amount(),
        })
    }

    /// The number of the granule in which a local value lies: the quotient of both, rounded down, also below 0.
    pub fn stamp(&self, local: Units) -> i64
        ensures value { result ≡ stamp_of self.now local.0 }
        ensures floor { IsFloor self.now local.0 result }
    {
        local.0.div_euclid(self.units as i64)
    }

    /// The same of a wider local value, from -2^64 to 2^64.
    pub fn stamp_wide(&self, local: i128) -> i64
        requires low { neg_ℤ (pos (2 ^ 64)) ≤ℤ local }
        requires high { local ≤ℤ pos (2 ^ 64) }
        ensures { result ≡ stamp_of self.now local }
    {
        local.div_euclid(i128::from(self.units)) as i64
    }
}
