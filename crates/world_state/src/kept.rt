ghost use Rattle.std.specs.Prelude.{◌≡◌, Bool, IfNone, IfOk, IfSome, map, true};
ghost use Rattle.net_plan.specs.declared.{event.What.TheVariants.{Break, On}, network.Network.Network};
ghost use Rattle.{net_plan.specs.declared.ids.DeviceId.DeviceId, sync_state.specs.declared.state.State.TheVariants.Off};
ghost use Rattle.device_rules.specs.FirstKinds.{IsFirstKind};
ghost use Rattle.device_rules.specs.Reading.{AreHeaded, AreOfFrame, HearsAll, MayHearSome, StandsAsBefore};
ghost use Rattle.run_law.specs.machines.{Calls.{HasDue, MayAct, MayHear, StandsFor}, Nodes.Node, Tasks.IsDueReading};
ghost use Rattle.world_law.specs.world.{Calls.{HasActed, HasHeard, IsStateOf}, Outcomes.befallen_node};
ghost use Rattle.world_state.specs.Keeping.{keeps, sound_one};

use crate::OutOfMemory;
use device_rules::{Heading, TaskKind, TellsKind};
use net_plan::LinkId;
use run_law::{Act, Arrival, Machine, Moment, Reason};
use std::alloc::Global;
use sync_state::State;
use tte_units::Units;
use tte_units::frames::Pcf;

/// The machine of a device, or what a broken device still shows.
#[derive(Drop)]
pub enum Kept<M: Machine + Drop> {
    /// The machine of a device that is not broken.
    Sound(M),
    /// The state and the adjustment in which a device broke.
    Out(State, Units),
}

/// What a device shows of itself.
#[derive(Clone, Copy)]
pub struct ShownState {
    /// Its state.
    pub state: State,
    /// Its adjustment.
    pub adjustment: Units,
}

impl<M: Machine + Drop> Kept<M> {
    /// The device's state.
    pub fn state(&self) -> State
        ensures { (network : Network) (device : DeviceId) (node : Node) → keeps M.stands self.now network device node
            → result ≡ node.standing.state }
    {
        match self {
            Kept::Sound(machine) => machine.state(),
            Kept::Out(state, _) => *state,
        }
    }

    /// Its adjustment.
    pub fn adjustment(&self) -> Units
        ensures { (network : Network) (device : DeviceId) (node : Node) → keeps M.stands self.now network device node
            → result ≡ node.standing.adjustment }
    {
        match self {
            Kept::Sound(machine) => machine.adjustment(),
            Kept::Out(_, adjustment) => *adjustment,
        }
    }

    /// Both.
    pub fn shown(&self) -> ShownState
        ensures { (network : Network) (device : DeviceId)
            → IsStateOf (keeps M.stands) network device self.now result.state result.adjustment }
    {
        ShownState {
            state: self.state(),
            adjustment: self.adjustment(),
        }
    }

    /// The least reading at which it acts by itself. A broken device never does.
    pub fn due(&self) -> Option<Units>
        ensures { (network : Network) (device : DeviceId) (node : Node) → keeps M.stands self.now network device node
            → IsDueReading network device node result }
    {
        match self {
            Kept::Sound(machine) => machine.due(),
            Kept::Out(_, _) => None,
        }
    }

    /// Does the first of all that is due at the moment. Where it is None, the device is broken.
    pub fn act(&mut self, moment: Moment) -> Option<Act>
        requires { StandsFor (keeps M.stands) self.old (λ network device node. MayAct network device node moment) }
        ensures acted { IfSome result (λ act. (network : Network) (device : DeviceId)
            → HasActed (keeps M.stands) network device moment act self.old self.new) }
        ensures none { IfNone result ((network : Network) (device : DeviceId) (node : Node)
            → keeps M.stands self.old network device node → node.broken ≡ true) }
    {
        match self {
            Kept::Sound(machine) => Some(machine.act(moment)),
            Kept::Out(_, _) => None,
        }
    }

    /// An event turns the device on, which is off, unless it is broken.
    pub fn turn_on(&mut self)
        ensures { (network : Network) (device : DeviceId) (node : Node) (on : Bool)
            → keeps M.stands self.old network device node
            → node.standing.state ≡ Off → keeps M.stands self.new network device
            (befallen_node on (On device) device node) }
    {
        if let Kept::Sound(machine) = self {
            machine.turn_on();
        }
    }

    /// A frame of these octets, 60 to 1,514, comes to the device by a link. One that is broken drops it.
    pub fn hear(&mut self, moment: Moment, link: LinkId, octets: &[u8]) -> Arrival
        requires { StandsFor (keeps M.stands) self.old (λ network device node.
            MayHear network device node moment link octets.now) }
        ensures { (network : Network) (device : DeviceId)
            → HasHeard (keeps M.stands) network device moment link octets.now result self.old self.new }
    {
        match self {
            Kept::Sound(machine) => machine.hear(moment, link, octets),
            Kept::Out(_, _) => Arrival::Dropped(Reason::Off),
        }
    }

    /// The device breaks. Where it was turned on at this very instant it is off, as it was before.
    pub fn break_down(&mut self, on: bool)
        ensures { (network : Network) (device : DeviceId) (node : Node) → keeps M.stands self.old network device node
            → keeps M.stands self.new network device (befallen_node on (Break device) device node) }
    {
        if let Kept::Sound(machine) = self {
            let state = if on { State::Off } else { machine.state() };
            let adjustment = machine.adjustment();
            *self = Kept::Out(state, adjustment);
        }
    }
}

impl<M: TellsKind + Drop> Kept<M> {
    /// A control frame comes to the device by a link. One that is broken drops it. The device has the same to do by
    /// itself as before.
    pub fn hear_pcf(&mut self, moment: Moment, link: LinkId, frame: &Pcf) -> Arrival
        requires { MayHearSome (keeps M.stands) self.old moment link (AreOfFrame frame.now) }
        ensures hears { HearsAll (keeps M.stands) moment link (AreOfFrame frame.now) result self.old self.new }
        ensures as_before { StandsAsBefore (keeps M.stands) self.old self.new }
    {
        match self {
            Kept::Sound(machine) => machine.hear_pcf(moment, link, frame),
            Kept::Out(_, _) => Arrival::Dropped(Reason::Off),
        }
    }

    /// A frame of this heading that is no control frame comes to the device by a link. One that is broken drops it.
    pub fn hear_heading(&mut self, moment: Moment, link: LinkId, heading: &Heading) -> Arrival
        requires { MayHearSome (keeps M.stands) self.old moment link (AreHeaded heading.now) }
        ensures { HearsAll (keeps M.stands) moment link (AreHeaded heading.now) result self.old self.new }
    {
        match self {
            Kept::Sound(machine) => machine.hear_heading(moment, link, heading),
            Kept::Out(_, _) => Arrival::Dropped(Reason::Off),
        }
    }

    /// The kind of the first of all that is due at the reading. Where nothing is due, any kind.
    pub fn first_kind(&self, reading: Units) -> TaskKind
        ensures { (network : Network) (device : DeviceId) (node : Node) → keeps M.stands self.now network device node
            → HasDue network device node reading.0 → IsFirstKind network device node reading.0 result }
    {
        match self {
            Kept::Sound(machine) => machine.first_kind(reading),
            Kept::Out(_, _) => TaskKind::Dispatch,
        }
    }
}

/// Machines of sound devices.
pub fn all_kept<M: Machine + Drop>(
    alloc: Global,
    machines: Vec<M>,
) -> Result<Vec<Kept<M>>, OutOfMemory>
    ensures { IfOk result (λ kept. kept.items ≡ map sound_one machines.items) }
{
    Ok(machines.into_iter().map(Kept::Sound).collect(alloc)?)
}
