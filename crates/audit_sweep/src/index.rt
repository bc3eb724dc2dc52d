//! What is kept of a report that was swept: what its events set, and what its records show at any of its times. A
//! command that tells why a record is there asks here what its judgement rests on.

ghost use Rattle.std.specs.Prelude.{◌+ℤ◌, ◌^◌, ◌≡◌, ◌≤◌, List, Some, option_map, pos};
ghost use Rattle.{net_plan.specs.Ranges.IsInRange, net_plan.specs.declared.network.Network.{Network as NetworkValue}};
ghost use Rattle.{audit_devices.specs.Keeping.records_before, run_law.specs.records.Happenings.{Happening, numbered}};
ghost use Rattle.{net_plan.specs.declared.event.Event.Event, sync_state.specs.membership.Summary.Summarizes};
ghost use Rattle.{audit_devices.specs.Effects.carried_by, audit_devices.specs.Showing.IsAfter};
ghost use Rattle.net_plan.specs.Belonging.{HasDevice};
ghost use Rattle.audit_law.specs.{events.Readings.scenario_under, law.CorrectionNumbers.heard_since_point};
ghost use Rattle.audit_sweep.specs.Indexing.{IsIndex, IsSomeIndex, before_corrections, clock_at, permanence_place};
ghost use Rattle.device_rules.specs.{Headings.heading_of, Widths.{IsLocal, IsWide}};
ghost use Rattle.run_law.specs.device.States.{adjustment_at_hearing, adjustment_before, state_before};

use crate::known::carried_by;
use crate::records::KeptRecords;
use audit_devices::clocks::DeviceMoment;
use audit_devices::{Carried, Standings};
use audit_law::events::{EventHistory, reading_law};
use device_rules::Heading;
use net_plan::{DeviceId, LinkId, Network};
use run_law::plain::Rank;
use sync_state::State;
use sync_state::membership::Heard;
use tte_units::Units;
use tte_units::frames::Members;

/// What the events of a report set, and what its records show at any of its times.
#[derive(Drop)]
pub struct Index {
    pub events: EventHistory,
    /// The time of the end.
    pub end: Units,
    pub records: KeptRecords,
    pub standings: Standings,
}

/// A control frame that is permanent: where, by which link, with which record it arrived there, and its point.
#[derive(Clone, Copy)]
pub struct Permanence {
    pub device: DeviceId,
    pub link: LinkId,
    pub cause: u64,
    pub point: Units,
}

impl Index {
    /// What the local clock of the device shows when something comes to it at a time, which is at most 2^60.
    pub fn clock_at(&self, network: &Network, device: DeviceId, time: u64) -> i128
        requires index { IsSomeIndex network.now self.now }
        requires there { HasDevice network.now device }
        requires limit { time ≤ 2 ^ 60 }
        ensures fits { IsLocal result }
        ensures is { (befallen : List Event) (hs : List Happening) → IsIndex network.now befallen hs self.now
            → result ≡ clock_at (scenario_under network.now befallen) hs device time }
    {
        reading_law();
        let shown = self.standings.before_time(device, time);
        local_at(self.events.reading(device, time), shown.adjustment())
    }

    /// The state of the device when something comes to it at the time: after the records of earlier times and the
    /// events of this one.
    pub fn state_before(&self, network: &Network, device: DeviceId, time: u64) -> State
        requires index { IsSomeIndex network.now self.now }
        requires there { HasDevice network.now device }
        ensures { (befallen : List Event) (hs : List Happening) → IsIndex network.now befallen hs self.now
            → result ≡ state_before (scenario_under network.now befallen) hs device time }
    {
        let shown = self.standings.before_time(device, time);
        shown.state_before(self.events.is_turned_on_at(device, time))
    }

    /// The adjustment of the device when something comes to it at the time: after the records of earlier times.
    pub fn adjustment_before(&self, network: &Network, device: DeviceId, time: u64) -> i128
        requires index { IsSomeIndex network.now self.now }
        requires there { HasDevice network.now device }
        ensures wide { IsWide result }
        ensures is { (befallen : List Event) (hs : List Happening) → IsIndex network.now befallen hs self.now
            → result ≡ (adjustment_before (scenario_under network.now befallen) hs device time).0 }
    {
        let shown = self.standings.before_time(device, time);
        shown.adjustment()
    }

    /// What the device has heard since its last correction point, where none of the records before the corrections of
    /// the time, which is at most 2^60, changes its adjustment at the time.
    pub fn heard(&self, network: &Network, device: DeviceId, time: u64) -> Heard
        requires range { IsInRange network.now }
        requires index { IsSomeIndex network.now self.now }
        requires there { HasDevice network.now device }
        requires limit { time ≤ 2 ^ 60 }
        ensures { (befallen : List Event) (hs : List Happening) → IsIndex network.now befallen hs self.now
            → IsAfter (before_corrections time hs) device time
            → Summarizes result
            (heard_since_point (scenario_under network.now befallen) (before_corrections time hs) device time) }
    {
        let moment = DeviceMoment::of(&self.events, device, time);
        let shown = self.standings.before_rank(device, time, Rank::Corrected);
        shown.heard_since(network, moment.readings.before)
    }

    /// What the frame of the record of the number says: its cycle and its members.
    pub fn carried(&self, number: u64) -> Carried
        ensures { (network : NetworkValue) (befallen : List Event) (hs : List Happening) (h : Happening)
            → IsIndex network befallen hs self.now → numbered hs number ≡ Some h → result ≡ carried_by h }
    {
        match self.records.get(number) {
            Some(kept) => carried_by(kept.frame),
            None => carried_by(None),
        }
    }

    /// What a judgement reads of the octets of the record of the number, if there is one.
    pub fn heading(&self, number: u64) -> Option<Heading>
        ensures { (network : NetworkValue) (befallen : List Event) (hs : List Happening)
            → IsIndex network befallen hs self.now
            → result ≡ option_map (λ h. heading_of h.octets) (numbered hs number) }
    {
        match self.records.get(number) {
            Some(kept) => Some(kept.heading),
            None => None,
        }
    }

    /// The adjustment with which its device judges a frame of these members that is permanent at the time: after the
    /// records before that.
    pub fn adjustment_at(
        &self,
        network: &Network,
        time: u64,
        members: Members,
        frame: Permanence,
    ) -> i128
        requires index { IsSomeIndex network.now self.now }
        requires there { HasDevice network.now frame.device }
        ensures wide { IsWide result }
        ensures is { (befallen : List Event) (hs : List Happening) → IsIndex network.now befallen hs self.now
            → result ≡ (adjustment_at_hearing (scenario_under network.now befallen)
            (records_before (permanence_place time members.0 frame) hs) frame.device time).0 }
    {
        let shown = self.standings.before_permanence(
            frame.device,
            time,
            members,
            frame.link,
            frame.cause,
            frame.point,
        );
        shown.adjustment()
    }
}

/// What a local clock of this adjustment shows that reads this.
fn local_at(reading: u64, adjustment: i128) -> i128
    requires { IsWide adjustment }
    ensures value { result ≡ pos reading +ℤ adjustment }
    ensures fits { IsLocal result }
{
    i128::from(reading) + adjustment
}
