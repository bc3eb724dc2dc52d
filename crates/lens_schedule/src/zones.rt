//! The stretches of the cycle.
ghost use Rattle.std.specs.Prelude.{◌^◌, ◌≡◌, ◌≤◌};
ghost use Rattle.lens_schedule.specs.Zones.{end_of, left_of, right_of, stretches, zone_of};
ghost use Rattle.net_plan.specs.Ranges.{IsInRange};

use crate::Scale;
use lens_svg::PicturePoint;
use net_plan::Network;

/// A stretch of the cycle, in the order of time.
#[derive(Clone, Copy)]
pub enum CycleStretch {
    /// Control frames come, until the clocks are set.
    Control,
    /// Late control frames may come, until the schedule begins.
    Late,
    /// Scheduled frames come, until the last window ends.
    Schedule,
    /// Nothing comes, until the cycle ends.
    Rest,
}

/// A stretch as it is drawn: its corner at the top on the left, its corner at the bottom on the right, and when it
/// ends.
#[derive(Clone, Copy)]
pub struct Zone {
    pub stretch: CycleStretch,
    pub from: PicturePoint,
    pub to: PicturePoint,
    pub time: u64,
}

/// All stretches.
const STRETCHES: [CycleStretch; 4] = [
    CycleStretch::Control,
    CycleStretch::Late,
    CycleStretch::Schedule,
    CycleStretch::Rest,
];

/// All stretches.
pub(crate) fn stretches() -> &'static [CycleStretch]
    ensures { result.now ≡ stretches }
{
    &STRETCHES
}

impl CycleStretch {
    /// When it ends.
    fn end(self, network: &Network, scale: Scale) -> u64
        requires { IsInRange network.now }
        ensures { result ≡ end_of network.now scale self }
    {
        match self {
            CycleStretch::Control => network.correction.amount(),
            CycleStretch::Late => network.tt_start.amount(),
            CycleStretch::Schedule => scale.end,
            CycleStretch::Rest => network.cycle.amount(),
        }
    }

    /// How far to the right of its column it begins.
    fn left(self, network: &Network, scale: Scale) -> u64
        requires range { IsInRange network.now }
        requires scale { scale.end ≤ 2 ^ 50 }
        ensures value { result ≡ left_of network.now scale self }
        ensures bound { result ≤ 930 }
    {
        match self {
            CycleStretch::Control => 160,
            CycleStretch::Late => 230,
            CycleStretch::Schedule => scale.x_of(network.tt_start.amount()),
            CycleStretch::Rest => 870,
        }
    }

    /// How far to the right of its column it ends.
    fn right(self, network: &Network, scale: Scale) -> u64
        requires range { IsInRange network.now }
        requires scale { scale.end ≤ 2 ^ 50 }
        ensures value { result ≡ right_of network.now scale self }
        ensures bound { result ≤ 930 }
    {
        match self {
            CycleStretch::Control => 230,
            CycleStretch::Late => scale.x_of(network.tt_start.amount()),
            CycleStretch::Schedule => 870,
            CycleStretch::Rest => 930,
        }
    }

    /// The stretch in a column, from the top to the bottom of its lanes.
    pub(crate) fn zone(
        self,
        network: &Network,
        scale: Scale,
        column: u64,
        top: u64,
        bottom: u64,
    ) -> Zone
        requires range { IsInRange network.now }
        requires scale { scale.end ≤ 2 ^ 50 }
        requires column { column ≤ 950 }
        ensures { result ≡ zone_of network.now scale column top bottom self }
    {
        Zone {
            stretch: self,
            from: PicturePoint {
                x: column + self.left(network, scale),
                y: top,
            },
            to: PicturePoint {
                x: column + self.right(network, scale),
                y: bottom,
            },
            time: self.end(network, scale),
        }
    }
}
