ghost use Rattle.std.specs.Prelude.{◌≡◌, ◌≤◌, ◌+◌, ◌^◌};
ghost use Rattle.sync_state.specs.Plan.{IsPlan, expected_at};

use tte_units::Units;

/// What the network says of a device's synchronisation.
#[derive(Clone, Copy, PartialEq, Eq)]
pub struct SyncPlan {
    /// The length of a cycle, in units of 2^-16 ns: 2^32 to 2^40.
    pub cycle_length: Units,
    /// Where in its cycle a frame is expected to be heard, as a local value: from -(2^61 + 2^58)
    /// to 2^61 + 2^58.
    pub expected: Units,
    /// How many members a frame needs, to integrate a device or to correct its clock.
    pub threshold: u32,
}

impl SyncPlan {
    /// The local value at which the frame of a cycle is expected.
    pub(crate) fn expected_at(&self, cycle: u32) -> Units
        requires plan { IsPlan self.now }
        requires cycle { cycle ≤ 2 ^ 21 + 2 ^ 18 }
        ensures { result.0 ≡ expected_at self.now cycle }
    {
        Units(i64::from(cycle) * self.cycle_length.0 + self.expected.0)
    }
}
