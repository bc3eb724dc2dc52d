//! The part of the cycle that is drawn to scale.
ghost use Rattle.std.specs.Prelude.{◌^◌, ◌≡◌, ◌≤◌, All};
ghost use Rattle.lens_schedule.specs.Scale.{last_end, scale_of, x_of};
ghost use Rattle.{net_plan.specs.Ranges.IsInRange, schedule_tables.specs.Entries.IsEntryInRange};

use crate::frames::window_end;
use net_plan::Network;
use schedule_tables::{Entry, tolerance};

/// Where the part that is drawn to scale begins and ends, as places in the cycle.
#[derive(Clone, Copy)]
pub struct Scale {
    pub begin: u64,
    pub end: u64,
}

/// The end of the last window.
fn last_end(network: &Network, entries: &[Entry]) -> u64
    requires range { IsInRange network.now }
    requires rows { All (IsEntryInRange network.now) entries.now }
    ensures value { result ≡ last_end network.now entries.now }
    ensures bound { result ≤ 2 ^ 50 }
{
    let mut last = 0;
    'entries: for entry in entries {
        last = last.max(window_end(network, entry));
    }
    last
}

impl Scale {
    /// From where the schedule begins, less how far the clocks may differ, to the end of the last window.
    pub(crate) fn of(network: &Network, entries: &[Entry]) -> Scale
        requires range { IsInRange network.now }
        requires rows { All (IsEntryInRange network.now) entries.now }
        ensures value { result ≡ scale_of network.now entries.now }
        ensures bound { result.end ≤ 2 ^ 50 }
    {
        Scale {
            begin: network.tt_start.amount().saturating_sub(tolerance(network)),
            end: last_end(network, entries),
        }
    }

    /// How far to the right of its column a place in the cycle stands, in pixels.
    pub(crate) fn x_of(self, time: u64) -> u64
        requires { self.end ≤ 2 ^ 50 }
        ensures value { result ≡ x_of self time }
        ensures bound { result ≤ 870 }
    {
        let length = self.end.saturating_sub(self.begin).max(1);
        270 + time.min(self.end).saturating_sub(self.begin) * 600 / length
    }
}
