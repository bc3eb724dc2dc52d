ghost use Rattle.std.specs.Prelude.{◌≡◌, true};
ghost use Rattle.{end_system.specs.Broken.StandsBroken, run_law.specs.machines.Nodes.Node};
ghost use Rattle.net_plan.specs.declared.{ids.DeviceId.DeviceId, network.Network.Network};

use device_rules::{Heading, TaskKind, TellsKind};
use net_plan::LinkId;
use run_law::{Act, Arrival, Machine, Moment, Reason, Ripe};
use sync_state::{State, Verdict};
use tte_units::Units;
use tte_units::frames::Pcf;

/// A broken device. It hears nothing and does nothing by itself, and keeps the state and the adjustment that it had.
#[derive(Clone, Copy)]
pub struct Broken {
    state: State,
    adjustment: Units,
}

impl Broken {
    /// A device that broke in this state and with this adjustment, in units of 2^-16 ns.
    pub fn new(state: State, adjustment: Units) -> Broken
        ensures { (network : Network) (device : DeviceId) (node : Node) → node.broken ≡ true
            → node.standing.state ≡ state → node.standing.adjustment ≡ adjustment
            → StandsBroken result network device node }
    {
        Broken { state, adjustment }
    }
}

impl Machine for Broken {
    ghost use Rattle.end_system.specs.Broken.{StandsBroken};

    ghost stands = { StandsBroken };

    fn due(&self) -> Option<Units> {
        None
    }

    fn act(&mut self, _moment: Moment) -> Act {
        Act::Correct(0, Verdict::Cleared)
    }

    fn hear(&mut self, _moment: Moment, _link: LinkId, _octets: &[u8]) -> Arrival {
        Arrival::Dropped(Reason::Off)
    }

    fn ripen(&mut self, _moment: Moment, _link: LinkId, _frame: &Pcf, _point: Units) -> Ripe {
        Ripe::Ignored
    }

    fn turn_on(&mut self) {}

    fn state(&self) -> State {
        self.state
    }

    fn adjustment(&self) -> Units {
        self.adjustment
    }
}

impl TellsKind for Broken {
    fn hear_pcf(&mut self, _moment: Moment, _link: LinkId, _frame: &Pcf) -> Arrival {
        Arrival::Dropped(Reason::Off)
    }

    fn hear_heading(&mut self, _moment: Moment, _link: LinkId, _heading: &Heading) -> Arrival {
        Arrival::Dropped(Reason::Off)
    }

    fn first_kind(&self, _reading: Units) -> TaskKind {
        TaskKind::Dispatch
    }
}
