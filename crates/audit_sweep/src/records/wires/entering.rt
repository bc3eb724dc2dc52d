//! How what arrives at a device enters it.

ghost use Rattle.std.specs.Prelude.{◌^◌, ◌≡◌, ◌≤◌, List, ℕ};
ghost use Rattle.audit_sweep.specs.records.wires.Entrances.{IsEnteredAs, IsJudgeable, IsLastTaken, judged_as};
ghost use Rattle.{audit_sweep.specs.records.wires.Signals.on_wire_of, run_law.specs.device.Standpoints.standpoint};
ghost use Rattle.{device_rules.specs.Entering.AreEntrances, run_law.specs.control.Wires.Signal};
ghost use Rattle.net_plan.specs.{Ranges.IsInRange, declared.ids.LinkId.{LinkId as LinkIdValue}};
ghost use Rattle.run_law.specs.{records.Happenings.Happening, scenario.Scenarios.Scenario, timed.Receptions.arrival_of};

use crate::records::wires::OnWire;
use device_rules::{EnteringRow, Entrances, Standpoint, TimedArrival, control_arrival};
use net_plan::{DeviceId, LinkId, Network};
use run_law::{Arrival, Reason};

/// How what arrives enters a device.
#[derive(Clone, Copy)]
pub enum Entered {
    /// This becomes of a control frame.
    Control(Arrival),
    /// A frame of any other kind is dropped.
    Refused(Reason),
    /// A frame with so many octets enters by the row, which judges it.
    ByRow(EnteringRow, usize),
}

/// What becomes of what arrives.
#[derive(Clone, Copy)]
pub enum Judged {
    /// This becomes of a control frame.
    Control(Arrival),
    /// This becomes of a frame of any other kind.
    Timed(TimedArrival),
}

impl Entered {
    /// What becomes of it at the device, which stands so and took the last frame of the row's virtual link in this
    /// cycle.
    pub fn becomes(
        &self,
        network: &Network,
        device: DeviceId,
        at: &Standpoint,
        last: Option<u32>,
    ) -> Judged
        requires range { IsInRange network.now }
        requires judgeable { IsJudgeable self.now }
        ensures { (s : Scenario) (hs : List Happening) (t cause : ℕ) (link : LinkIdValue) (signal : Signal)
            → s.network ≡ network.now → at.now ≡ standpoint s hs device t
            → IsEnteredAs s hs device t link cause signal self.now → IsLastTaken hs device t link cause self.now last
            → judged_as result ≡ arrival_of s hs device t link cause signal }
    {
        match self {
            Entered::Control(arrival) => Judged::Control(*arrival),
            Entered::Refused(reason) => Judged::Timed(TimedArrival::Dropped(*reason)),
            Entered::ByRow(row, length) => {
                Judged::Timed(row.arrival(network, device, at, *length, last))
            }
        }
    }
}

/// How what arrives by the link enters the device, which stands so.
///
/// The reading is at most 2^62.
pub fn entered_as(
    network: &Network,
    entrances: &Entrances,
    device: DeviceId,
    link: LinkId,
    at: &Standpoint,
    what: &OnWire,
) -> Entered
    requires range { IsInRange network.now }
    requires entrances { AreEntrances network.now entrances.now }
    requires reading { at.now.reading ≤ 2 ^ 62 }
    ensures judgeable { IsJudgeable result }
    ensures is { (s : Scenario) (hs : List Happening) (t cause : ℕ) (signal : Signal) → s.network ≡ network.now
        → at.now ≡ standpoint s hs device t → what.now ≡ on_wire_of signal
        → IsEnteredAs s hs device t link cause signal result }
{
    match what {
        OnWire::Control(decoded) => {
            Entered::Control(control_arrival(network, device, link, at, decoded))
        }
        OnWire::Timed(heading) => {
            match entrances.entering(network, device, link, at, heading) {
                Ok(row) => Entered::ByRow(row, heading.length),
                Err(reason) => Entered::Refused(reason),
            }
        }
    }
}
