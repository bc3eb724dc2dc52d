//! The local values at which the frames of a row leave.

ghost use Rattle.std.specs.Prelude.{◌≡◌, ◌<◌, ◌*◌, ◌^◌, ◌≤◌, pos, IfSome};
ghost use Rattle.{audit_devices.specs.clocks.Finding.IsSeries, tte_units.specs.Amount.amount};
ghost use Rattle.audit_sweep.specs.records.dispatches.Leavings.{AreLeavingsOrNone, IsRowFit, cycle_of, first_cycle};
ghost use Rattle.{audit_sweep.specs.records.dispatches.Leavings.leaving_value, net_plan.specs.Ranges.IsInRange};

use crate::records::dispatches::LeavingRow;
use audit_devices::clocks::Series;
use net_plan::Network;

impl LeavingRow {
    /// The local values at which the row's frames leave, if its virtual link occurs in a cycle.
    pub fn leavings(&self, network: &Network) -> Option<Series>
        requires range { IsInRange network.now }
        requires row { IsRowFit self.now }
        ensures series { IfSome result IsSeries }
        ensures is { AreLeavingsOrNone network.now self.now result }
    {
        if self.period <= self.phase {
            return None;
        }
        Some(self.series(network))
    }

    /// The same, where the virtual link occurs in a cycle.
    fn series(&self, network: &Network) -> Series
        requires range { IsInRange network.now }
        requires row { IsRowFit self.now }
        ensures series { IsSeries result }
        ensures first { result.first ≡ pos (leaving_value network.now self.now (first_cycle self.now)) }
        ensures step { result.step ≡ self.now.period * amount network.now.cycle }
    {
        let cycle = network.cycle.amount();
        Series {
            first: i128::from(u64::from(self.first_cycle()) * cycle + self.offset),
            step: u64::from(self.period) * cycle,
        }
    }

    /// The cycle of this number, from 0, in which the virtual link occurs, where it occurs in any.
    pub fn cycle_of(&self, number: u64) -> u64
        requires row { IsRowFit self.now }
        requires few { number ≤ 2 ^ 52 }
        ensures { result ≡ cycle_of self.now number }
    {
        u64::from(self.first_cycle()) + number * u64::from(self.period)
    }

    /// The first cycle in which the virtual link occurs. It is not the silent cycle 0.
    fn first_cycle(&self) -> u32
        requires { IsRowFit self.now }
        ensures value { result ≡ first_cycle self.now }
        ensures high { result ≤ 64 }
    {
        if self.phase == 0 {
            self.period
        } else {
            self.phase
        }
    }
}
