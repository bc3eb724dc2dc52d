ghost use Rattle.device_rules.specs.FirstKinds.{IsFirstKind};
ghost use Rattle.device_rules.specs.Reading.{AreHeaded, AreOfFrame, HearsAll, MayHearSome, StandsAsBefore};
ghost use Rattle.net_plan.specs.declared.{ids.DeviceId.DeviceId, network.Network.Network};
ghost use Rattle.run_law.specs.machines.{Calls.HasDue, Nodes.Node};

use crate::heading::Heading;
use net_plan::LinkId;
use run_law::{Arrival, Machine, Moment};
use tte_units::Units;
use tte_units::frames::Pcf;

/// What a device does by itself, in the order in which it does what is due at one moment.
#[derive(Clone, Copy, PartialEq, Eq)]
pub enum TaskKind {
    /// It sends the frame of a collection.
    Emission,
    /// It sends the control frame of a cycle.
    Sending,
    /// It comes to a correction point.
    Correction,
    /// It dispatches a row's frame.
    Dispatch,
}

/// A machine that tells beforehand what kind of thing it will do, and hears frames without their octets.
pub trait TellsKind: Machine {
    /// What becomes of a control frame that arrives by a link of the device: what `hear` tells of octets that spell it.
    /// The device has the same to do by itself as before.
    fn hear_pcf(&mut self, moment: Moment, link: LinkId, frame: &Pcf) -> Arrival
        requires { MayHearSome Self.stands self.old moment link (AreOfFrame frame.now) }
        ensures hears { HearsAll Self.stands moment link (AreOfFrame frame.now) result self.old self.new }
        ensures as_before { StandsAsBefore Self.stands self.old self.new };

    /// What becomes of a frame of this heading, which is no control frame, that arrives by a link of the device: what
    /// `hear` tells of its octets.
    fn hear_heading(&mut self, moment: Moment, link: LinkId, heading: &Heading) -> Arrival
        requires { MayHearSome Self.stands self.old moment link (AreHeaded heading.now) }
        ensures { HearsAll Self.stands moment link (AreHeaded heading.now) result self.old self.new };

    /// The kind of the first of all that is due at the reading, in units of 2^-16 ns. Where nothing is due, any kind.
    fn first_kind(&self, reading: Units) -> TaskKind
        ensures { (network : Network) (device : DeviceId) (node : Node) → Self.stands self.now network device node
            → HasDue network device node reading.0 → IsFirstKind network device node reading.0 result };
}
