//! How time-triggered frames that arrive are judged.

ghost use Rattle.std.specs.Prelude.{◌%◌, ◌&&◌, ◌==◌, ◌≡◌, nat_le};
ghost use Rattle.device_rules.specs.{Answers.arrival_as, Entering.{HasPeriod, entering_by, fault_of}};
ghost use Rattle.{net_plan.specs.Ranges.IsInRange, schedule_tables.specs.declared.entry.Entry.Entry};
ghost use Rattle.run_law.specs.timed.Arrivals.{is_taken_in, row_fault, taken_by, taken_or_fault};

use crate::network::{cycle_at, is_end};
use crate::{EnteringRow, Standpoint};
use net_plan::{DeviceId, Network, VlId};
use run_law::{Reason, place_in_cycle};

/// What becomes of a time-triggered frame that arrives.
#[derive(Clone, Copy, PartialEq, Eq)]
pub enum TimedArrival {
    /// It is dropped.
    Dropped(Reason),
    /// A switch takes it as a frame of this virtual link, in this cycle of its own.
    Accepted(VlId, u64),
    /// An end system takes it as a frame of this virtual link, in this cycle of its own.
    Delivered(VlId, u64),
}

impl EnteringRow {
    /// The virtual link.
    pub fn vl(&self) -> VlId
        ensures { result ≡ self.now.vl }
    {
        self.vl
    }

    /// What becomes of a frame of the row with so many octets, where the device took the last frame of the virtual link
    /// in this cycle.
    pub fn arrival(
        &self,
        network: &Network,
        device: DeviceId,
        at: &Standpoint,
        length: usize,
        last: Option<u32>,
    ) -> TimedArrival
        requires range { IsInRange network.now }
        requires period { HasPeriod self.now }
        ensures { (entry : Entry) → self.now ≡ entering_by network.now entry → arrival_as result
            ≡ taken_or_fault network.now device at.now entry (row_fault network.now at.now entry length last) }
    {
        let value = at.clock();
        let cycle = cycle_at(network, value);
        match self.fault(length, cycle, place_in_cycle(network, value), last) {
            Some(reason) => TimedArrival::Dropped(reason),
            None => taken_by(network, device, self.vl, cycle),
        }
    }

    /// Why a frame of so many octets is dropped, in this cycle and at this place of it, if it is: the first reason in
    /// this order.
    pub fn fault(&self, length: usize, cycle: u64, place: i128, last: Option<u32>) -> Option<Reason>
        requires { HasPeriod self.now }
        ensures { result ≡ fault_of self.now length cycle place last }
    {
        if length != usize::from(self.length) {
            Some(Reason::Length)
        } else if !self.occurs_in(cycle) || place < i128::from(self.window.from.0) {
            Some(Reason::Early)
        } else if i128::from(self.window.to.0) < place {
            Some(Reason::Late)
        } else if is_taken_in(cycle, last) {
            Some(Reason::Repeat)
        } else {
            None
        }
    }

    /// Does the virtual link occur in the cycle?
    fn occurs_in(&self, cycle: u64) -> bool
        requires { HasPeriod self.now }
        ensures { result ≡ (nat_le 1 cycle && cycle % self.now.period == self.now.phase) }
    {
        1 <= cycle && cycle % u64::from(self.period) == u64::from(self.phase)
    }
}

/// The device takes a frame of the virtual link in this cycle.
fn taken_by(network: &Network, device: DeviceId, vl: VlId, cycle: u64) -> TimedArrival
    ensures { arrival_as result ≡ taken_by network.now device vl cycle }
{
    if is_end(network, device) {
        TimedArrival::Delivered(vl, cycle)
    } else {
        TimedArrival::Accepted(vl, cycle)
    }
}

/// Was the last frame taken in the cycle?
fn is_taken_in(cycle: u64, last: Option<u32>) -> bool
    ensures { result ≡ is_taken_in cycle last }
{
    match last {
        Some(last) => u64::from(last) == cycle,
        None => false,
    }
}
