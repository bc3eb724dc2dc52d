ghost use Rattle.std.specs.Prelude.{◌≡◌, ◌+◌, ◌^◌, ◌+ℤ◌};
ghost use Rattle.net_plan.specs.Ranges.{IsWithin};
ghost use Rattle.sync_state.specs.correction.Deviation.{IsSmall};

use sync_state::State;
use tte_units::Units;

/// Where a switch stands when something comes to it.
#[derive(Clone, Copy)]
pub struct Standpoint {
    pub state: State,
    /// What its clock reads.
    pub reading: Units,
    pub adjustment: Units,
}

impl Standpoint {
    /// What its local clock shows.
    pub(crate) fn local(&self) -> Units
        requires reading { IsWithin 0 (2 ^ 60 + 2 ^ 51) self.now.reading }
        requires small { IsSmall self.now.adjustment.0 }
        ensures { result.0 ≡ self.now.reading.0 +ℤ self.now.adjustment.0 }
    {
        local(self.reading, self.adjustment)
    }
}

/// What a local clock of this adjustment shows at the reading.
pub(crate) fn local(reading: Units, adjustment: Units) -> Units
    requires reading { IsWithin 0 (2 ^ 60 + 2 ^ 51) reading }
    requires small { IsSmall adjustment.0 }
    ensures { result.0 ≡ reading.0 +ℤ adjustment.0 }
{
    Units(reading.0 + adjustment.0)
}
