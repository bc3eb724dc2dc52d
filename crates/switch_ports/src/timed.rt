//! Frames that are no control frames.

ghost use Rattle.std.specs.Prelude.{◌≡◌, List, ℕ};
ghost use Rattle.device_rules.specs.{Headings.heading_of, Intakes.{HasTaken, IsWhole, last_by}};
ghost use Rattle.{run_law.specs.timed.Arrivals.timed_arrival};
ghost use Rattle.net_plan.specs.{Ranges.IsInRange, declared.{ids.DeviceId.DeviceId, network.Network.Network}};
ghost use Rattle.{run_law.specs.machines.{Calls.IsLinkAt, Nodes.TakenFrame}, switch_ports.specs.Intakes.IsTakenSo};
ghost use Rattle.switch_ports.specs.{Departing.{IsKeptSo, IsReady}, Standpoints.{IsAlive, standpoint_of}};
ghost use Rattle.{switch_ports.specs.Sites.IsSiteOf, tte_units.specs.Amount.amount};

use crate::departures::TakenFrameAt;
use crate::{Standpoint, Switch};
use device_rules::{Heading, is_off};
use net_plan::LinkId;
use run_law::Arrival;

impl Switch {
    /// What becomes of a frame of this heading that is no control frame and comes by the link.
    pub(crate) fn hear_timed(&mut self, at: &Standpoint, link: LinkId, heading: &Heading) -> Arrival
        requires alive { IsAlive self.old.site at.now }
        requires whole { IsWhole self.old.intake }
        requires ready { IsReady self.old.departures }
        ensures rest { self.new ≡ record self.old { intake = self.new.intake; departures = self.new.departures } }
        ensures departs { IsKeptSo self.old.departures (amount self.old.site.plan.cycle_length) self.old.changed.0
            at.now result self.new.departures }
        ensures is { (octets : List ℕ) → heading.now ≡ heading_of octets
            → (network : Network) (device : DeviceId) (taken : List TakenFrame) → IsInRange network
            → IsSiteOf network device self.old.site → HasTaken network device self.old.intake taken
            → IsLinkAt network device link
            → (result ≡ timed_arrival network device link (standpoint_of at.now) octets (last_by taken))
            × IsTakenSo network device taken self.new.intake result }
    {
        if let Some(reason) = heading.fault(!is_off(at.state), at.state, self.site.marker) {
            return Arrival::Dropped(reason);
        }
        let length = self.site.plan.cycle_length;
        let local = at.local();
        let taken = self.intake.take(length, link, heading, local);
        match taken {
            Ok((vl, cycle)) => {
                let taking = TakenFrameAt {
                    vl,
                    cycle,
                    at: local,
                };
                self.departures
                    .take(length, taking, self.changed, at.adjustment);
                Arrival::Accepted(vl, cycle)
            }
            Err(reason) => Arrival::Dropped(reason),
        }
    }
}
