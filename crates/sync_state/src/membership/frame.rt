ghost use Rattle.std.specs.Prelude.{◌≡◌, ◌<◌, ◌↔◌, IsTrue};

use crate::membership::count;
use tte_units::Units;
use tte_units::frames::Members;

/// What a device keeps of a protocol control frame that it has heard.
#[derive(Clone, Copy, PartialEq, Eq)]
pub struct HeardFrame {
    /// The integration cycle.
    pub cycle: u32,
    /// The masters that the frame stands for.
    pub members: Members,
    /// The reading at which the frame counts as received, in units of 2^-16 ns.
    pub point: Units,
}

impl HeardFrame {
    ghost use Rattle.sync_state.specs.membership.BestFrame.{IsBehind};

    /// Whether it has fewer members than the other frame, or as many and an earlier point.
    pub(crate) fn is_behind(&self, other: &HeardFrame) -> bool
        ensures { IsTrue result ↔ IsBehind self.now other.now }
    {
        let (mine, others) = (count(self.members), count(other.members));
        mine < others || (mine == others && self.point.0 < other.point.0)
    }
}
