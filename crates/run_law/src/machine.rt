ghost use Rattle.std.specs.Prelude.{◌≡◌, false};
ghost use Rattle.net_plan.specs.declared.{ids.DeviceId.DeviceId, network.Network.Network};
ghost use Rattle.sync_state.specs.declared.state.State.TheVariants.{Off};
ghost use Rattle.run_law.specs.{control.Wires.signal_of, machines.Tasks.IsDueReading};
ghost use Rattle.run_law.specs.machines.Answers.{IsActOf, IsPermanenceOutcomeAt, after_arrival, after_permanence};
ghost use Rattle.run_law.specs.machines.{Answers.{arrival_at, called, node_turned_on}, Calls.{MayTake, StandsFor}};
ghost use Rattle.run_law.specs.machines.Calls.{HasDue, IsHearing, MayAct, MayArrive, MayCall, MayHear, MayRipen};
ghost use Rattle.run_law.specs.{machines.Nodes.{Node, acting, arriving, ripening}, scenario.Devices.channel_of_link};

use crate::{Act, Arrival, Moment, Ripe};
use net_plan::LinkId;
use sync_state::State;
use tte_units::Units;
use tte_units::frames::Pcf;

/// A device as it behaves by itself: what becomes of the frames that come to it, and what it does when its clock
/// reaches a value.
///
/// At one instant the calls come in the order `turn_on`, `hear`, `ripen`, `act`. Times and readings do not fall from
/// call to call; before a later instant `act` was called until nothing more was due; and no call comes at a reading
/// that exceeds that of `due` by the precision or more.
pub trait Machine {
    /// It stands as this device of this network stands after what it was given and has done.
    ghost stands: { Self → Network → DeviceId → Node → Type 0 };

    /// The least reading at which it acts by itself, in units of 2^-16 ns. It is None exactly where it never does
    /// without a further frame or event.
    fn due(&self) -> Option<Units>
        ensures { (network : Network) (device : DeviceId) (node : Node) → stands self.now network device node
            → IsDueReading network device node result };

    /// Does the first of all that is due at the moment, by kind: emissions by their opening points, then the sending,
    /// then the correction, then the dispatches by offset, link and row.
    ///
    /// The reading of `due` is reached.
    fn act(&mut self, moment: Moment) -> Act
        requires { StandsFor stands self.old (λ network device node. MayAct network device node moment) }
        ensures { (network : Network) (device : DeviceId) (node : Node) → stands self.old network device node
            → MayCall network device node moment acting → HasDue network device node moment.reading.0
            → (new : Node) × IsActOf network device node moment result new × stands self.new network device new };

    /// What becomes of the frame of these octets, 60 to 1,514, that arrives by a link of the device.
    fn hear(&mut self, moment: Moment, link: LinkId, octets: &[u8]) -> Arrival
        requires { StandsFor stands self.old (λ network device node.
            MayHear network device node moment link octets.now) }
        ensures { (network : Network) (device : DeviceId) (node : Node) → stands self.old network device node
            → MayCall network device node moment arriving → MayArrive network device link octets.now
            → (result ≡ arrival_at network device node moment link (signal_of octets.now))
            × stands self.new network device (called moment arriving (after_arrival node moment result)) };

    /// What becomes of a frame for whose permanence the device has waited, at the first instant at which its reading
    /// is at least the point. The device is neither off nor broken.
    fn ripen(&mut self, moment: Moment, link: LinkId, frame: &Pcf, point: Units) -> Ripe
        requires { StandsFor stands self.old
            (λ network device node. MayTake network device node moment link frame.now point) }
        ensures { (network : Network) (device : DeviceId) (node : Node) → stands self.old network device node
            → MayCall network device node moment ripening → IsHearing network device node
            → MayRipen network device node moment link frame.now point
            → IsPermanenceOutcomeAt network device node frame.now point result
            × stands self.new network device
            (called moment ripening
            (after_permanence node moment (channel_of_link network link) frame.now point result)) };

    /// An event turns the device on, which is off and not broken.
    fn turn_on(&mut self)
        ensures { (network : Network) (device : DeviceId) (node : Node) → stands self.old network device node
            → node.standing.state ≡ Off → node.broken ≡ false
            → stands self.new network device (node_turned_on node) };

    /// The device's state after the calls so far.
    fn state(&self) -> State
        ensures { (network : Network) (device : DeviceId) (node : Node) → stands self.now network device node
            → result ≡ node.standing.state };

    /// Its adjustment after the calls so far, in units of 2^-16 ns.
    fn adjustment(&self) -> Units
        ensures { (network : Network) (device : DeviceId) (node : Node) → stands self.now network device node
            → result ≡ node.standing.adjustment };
}
