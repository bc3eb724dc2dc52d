ghost use Rattle.std.specs.Int.{int_rem_euclid};
ghost use Rattle.std.specs.Prelude.{◌*◌, ◌+ℤ◌, ◌+◌, ◌<◌, ◌^◌, ◌≡◌, ◌≤ℤ◌, IfOk, int_lt, length, pos};
ghost use Rattle.{device_rules.specs.Arriving.IsGrownSo, pcf_codec.specs.Decoding.decoded};
ghost use Rattle.net_plan.specs.Ranges.{IsInRange};
ghost use Rattle.{net_plan.specs.declared.ids.DeviceId.DeviceId, run_law.specs.scenario.Devices.is_parent_of};
ghost use Rattle.{net_plan.specs.declared.network.Network.Network, run_law.specs.control.Arrivals.point_on_arrival};
ghost use Rattle.run_law.specs.control.Arrivals.{control_arrival, frame_fault, frame_or_fault, frame_taken};
ghost use Rattle.run_law.specs.control.Arrivals.{is_gate_shut, is_of_other_member};
ghost use Rattle.{run_law.specs.device.Standpoints.clock_of, tte_units.specs.Amount.{amount, units_of}};
ghost use Rattle.switch_ports.specs.{Sites.IsSiteOf, Standpoints.{IsAlive, IsSiteInRange, standpoint_of}};

use crate::{Site, Standpoint};
use device_rules::{is_cold_start, is_of_other_domain, is_off, is_synchronised, refused};
use drift_clock::transparent::{arrive, permanence};
use net_plan::{LinkId, Way};
use pcf_codec::decode;
use run_law::{Arrival, Reason};
use tte_units::Units;
use tte_units::frames::{Members, Pcf};

impl Site {
    /// What becomes of a protocol control frame that arrives.
    pub(crate) fn control_arrival(&self, at: &Standpoint, link: LinkId, octets: &[u8]) -> Arrival
        requires octets { length octets.now < 2 ^ 32 }
        requires alive { IsAlive self.now at.now }
        ensures { (network : Network) (device : DeviceId) → IsInRange network → IsSiteOf network device self.now
            → result ≡ control_arrival network device link (standpoint_of at.now) (decoded octets.now) }
    {
        match decode(octets) {
            Ok(frame) => self.frame_arrival(at, link, &frame),
            Err(_) if is_off(at.state) => Arrival::Dropped(Reason::Off),
            Err(refusal) => Arrival::Dropped(refused(refusal)),
        }
    }

    /// What becomes of the frame that the decoder gave.
    pub fn frame_arrival(&self, at: &Standpoint, link: LinkId, frame: &Pcf) -> Arrival
        requires alive { IsAlive self.now at.now }
        ensures { (network : Network) (device : DeviceId) → IsInRange network → IsSiteOf network device self.now
            → result ≡ frame_or_fault network device link (standpoint_of at.now) frame.now
            (frame_fault network device link (standpoint_of at.now) frame.now) }
    {
        match self.grown_clock(at, link, frame) {
            Ok(clock) => self.frame_taken(at, link, Pcf { clock, ..*frame }),
            Err(reason) => Arrival::Dropped(reason),
        }
    }

    /// What becomes of a frame that is not dropped.
    fn frame_taken(&self, at: &Standpoint, link: LinkId, frame: Pcf) -> Arrival
        requires alive { IsAlive self.now at.now }
        requires young { pos frame.clock ≤ℤ self.now.dmax.0 }
        ensures { (network : Network) (device : DeviceId) → IsInRange network → IsSiteOf network device self.now
            → result ≡ frame_taken network device link frame
            (point_on_arrival network (standpoint_of at.now) frame.clock) }
    {
        let point = permanence(at.reading, frame.clock, self.dmax);
        if !self.is_relay {
            Arrival::Waits(frame, point)
        } else if self.is_parent_of(link) {
            Arrival::Passes(frame, Way::Up)
        } else {
            Arrival::PassesAndWaits(frame, Way::Down, point)
        }
    }

    /// The frame's clock as the wire has grown it, or why the frame is dropped: the first reason in this order.
    fn grown_clock(&self, at: &Standpoint, link: LinkId, frame: &Pcf) -> Result<u64, Reason>
        requires alive { IsAlive self.now at.now }
        ensures young { IfOk result (λ clock. pos clock ≤ℤ self.now.dmax.0) }
        ensures is { (network : Network) (device : DeviceId) → IsInRange network → IsSiteOf network device self.now
            → IsGrownSo network device link (standpoint_of at.now) frame.now result }
    {
        if is_off(at.state) {
            return Err(Reason::Off);
        }
        if is_cold_start(frame.kind) {
            return Err(Reason::ColdStart);
        }
        if is_of_other_domain(self.frame.priority, self.frame.domain, frame) {
            return Err(Reason::Domain);
        }
        if self.is_of_other_member(link, frame.members) {
            return Err(Reason::Member);
        }
        let Some(clock) = arrive(frame.clock, self.port(link).wire, self.dmax) else {
            return Err(Reason::Old);
        };
        if self.is_gate_shut(at) {
            return Err(Reason::Gate);
        }
        Ok(clock)
    }

    /// Are these members others than those of the end system at the link?
    fn is_of_other_member(&self, link: LinkId, members: Members) -> bool
        ensures { (network : Network) (device : DeviceId) → IsSiteOf network device self.now
            → result ≡ is_of_other_member network device link members }
    {
        self.port(link).peer.is_other_member(members)
    }

    /// Is the switch the link's parent?
    pub(crate) fn is_parent_of(&self, link: LinkId) -> bool
        ensures { (network : Network) (device : DeviceId) → IsSiteOf network device self.now
            → result ≡ is_parent_of network device link }
    {
        self.port(link).peer.is_below()
    }

    /// Is the gate of the relay shut? It is open from before the cycle's start up to the correction.
    fn is_gate_shut(&self, at: &Standpoint) -> bool
        requires alive { IsAlive self.now at.now }
        ensures { (network : Network) (device : DeviceId) → IsInRange network → IsSiteOf network device self.now
            → result ≡ is_gate_shut network device (standpoint_of at.now) }
    {
        if !self.is_relay || !is_synchronised(at.state) {
            return false;
        }
        is_behind(self.gate_end(), self.place_in_cycle(self.gate_value(at)))
    }

    /// What the local clock shows, and as much as the gate opens before the cycle's start.
    fn gate_value(&self, at: &Standpoint) -> Units
        requires { IsAlive self.now at.now }
        ensures { result.0 ≡ (clock_of (standpoint_of at.now) +ℤ pos (2 * amount self.now.precision)) }
    {
        Units(at.local().0 + 2 * self.precision.0)
    }

    /// The place of a local value in its cycle.
    pub(crate) fn place_in_cycle(&self, value: Units) -> Units
        requires { IsSiteInRange self.now }
        ensures { result.0 ≡ int_rem_euclid value.0 self.now.plan.cycle_length.0 }
    {
        Units(value.0.rem_euclid(self.plan.cycle_length.0))
    }

    /// How far behind the place at which it opens the gate shuts.
    fn gate_end(&self) -> Units
        requires { IsSiteInRange self.now }
        ensures { result ≡ units_of (amount self.now.correction + 2 * amount self.now.precision) }
    {
        Units::from_amount(self.correction.amount() + 2 * self.precision.amount())
    }
}

/// Is the place behind the limit?
fn is_behind(limit: Units, place: Units) -> bool
    ensures { result ≡ int_lt limit.0 place.0 }
{
    limit.0 < place.0
}
