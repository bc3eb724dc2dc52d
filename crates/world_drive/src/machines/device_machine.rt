use device_rules::{Heading, TaskKind, TellsKind};
use end_system::EndSystem;
use net_plan::LinkId;
use run_law::{Act, Arrival, Machine, Moment, Ripe};
use switch_ports::Switch;
use sync_state::State;
use tte_units::Units;
use tte_units::frames::Pcf;

/// The machine of a device, which is an end system or a switch.
#[derive(Drop)]
pub enum DeviceMachine {
    /// That of a master or a client.
    EndSystem(EndSystem),
    /// That of a compression master or a relay.
    Switch(Switch),
}

impl Machine for DeviceMachine {
    ghost use Rattle.world_drive.specs.machines.Standing.{StandsAsDevice};

    ghost stands = { StandsAsDevice };

    fn due(&self) -> Option<Units> {
        match self {
            DeviceMachine::EndSystem(machine) => machine.due(),
            DeviceMachine::Switch(machine) => machine.due(),
        }
    }

    fn act(&mut self, moment: Moment) -> Act {
        match self {
            DeviceMachine::EndSystem(machine) => machine.act(moment),
            DeviceMachine::Switch(machine) => machine.act(moment),
        }
    }

    fn hear(&mut self, moment: Moment, link: LinkId, octets: &[u8]) -> Arrival {
        match self {
            DeviceMachine::EndSystem(machine) => machine.hear(moment, link, octets),
            DeviceMachine::Switch(machine) => machine.hear(moment, link, octets),
        }
    }

    fn ripen(&mut self, moment: Moment, link: LinkId, frame: &Pcf, point: Units) -> Ripe {
        match self {
            DeviceMachine::EndSystem(machine) => machine.ripen(moment, link, frame, point),
            DeviceMachine::Switch(machine) => machine.ripen(moment, link, frame, point),
        }
    }

    fn turn_on(&mut self) {
        match self {
            DeviceMachine::EndSystem(machine) => machine.turn_on(),
            DeviceMachine::Switch(machine) => machine.turn_on(),
        }
    }

    fn state(&self) -> State {
        match self {
            DeviceMachine::EndSystem(machine) => machine.state(),
            DeviceMachine::Switch(machine) => machine.state(),
        }
    }

    fn adjustment(&self) -> Units {
        match self {
            DeviceMachine::EndSystem(machine) => machine.adjustment(),
            DeviceMachine::Switch(machine) => machine.adjustment(),
        }
    }
}

impl TellsKind for DeviceMachine {
    fn hear_pcf(&mut self, moment: Moment, link: LinkId, frame: &Pcf) -> Arrival {
        match self {
            DeviceMachine::EndSystem(machine) => machine.hear_pcf(moment, link, frame),
            DeviceMachine::Switch(machine) => machine.hear_pcf(moment, link, frame),
        }
    }

    fn hear_heading(&mut self, moment: Moment, link: LinkId, heading: &Heading) -> Arrival {
        match self {
            DeviceMachine::EndSystem(machine) => machine.hear_heading(moment, link, heading),
            DeviceMachine::Switch(machine) => machine.hear_heading(moment, link, heading),
        }
    }

    fn first_kind(&self, reading: Units) -> TaskKind {
        match self {
            DeviceMachine::EndSystem(machine) => machine.first_kind(reading),
            DeviceMachine::Switch(machine) => machine.first_kind(reading),
        }
    }
}
