use run_law::Machine;
use std::alloc::Global;
use std::process::Abort;
use std::test::Fail;
use sync_state::State;
use tte_units::Units;
use worked_network::{accepted_of, star};
use world_drive::machines::{DeviceMachine, machines_of};

/// Four masters and two clients below one switch of each channel. The second client begins off.
const DEVICES: &str = " {name=\"ca\", role=\"cm\", mac=\"020000000022\", channel=\"a\", start=0},
 {name=\"m1\", role=\"master\", mac=\"020000000011\", member=0, start=0},
 {name=\"m2\", role=\"master\", mac=\"020000000012\", member=1, start=0},
 {name=\"c1\", role=\"client\", mac=\"020000000015\", start=1000},
 {name=\"cb\", role=\"cm\", mac=\"020000000024\", channel=\"b\", start=7},
 {name=\"m3\", role=\"master\", mac=\"020000000013\", member=2, start=0},
 {name=\"m4\", role=\"master\", mac=\"020000000014\", member=3, start=0},
 {name=\"c2\", role=\"client\", mac=\"020000000016\"},
";

/// The machines of the network's devices, as they begin.
fn machines(alloc: Global) -> Result<Vec<DeviceMachine>, Fail> {
    let text = star(alloc, DEVICES, &["m1", "m2", "m3", "m4", "c1", "c2"])?;
    let accepted = accepted_of(alloc, text.as_str())?;
    Ok(machines_of(alloc, &accepted)?)
}

/// When a master sends in cycle 1.
const SENDS: i64 = 131_072_000_000;

/// The correction point of that cycle.
const CORRECTS: i64 = 149_422_080_000;

/// The adjustments of the devices that begin synchronised, and when these are due. A master first sends as cycle 1
/// begins; a client and a switch first come to its correction point.
const BEGINNINGS: [(Units, Units); 7] = [
    (Units(0), Units(CORRECTS)),
    (Units(0), Units(SENDS)),
    (Units(0), Units(SENDS)),
    (Units(1000), Units(CORRECTS - 1000)),
    (Units(7), Units(CORRECTS - 7)),
    (Units(0), Units(SENDS)),
    (Units(0), Units(SENDS)),
];

/// Tries that the machine is synchronised, and has the adjustment, and is due then.
fn try_synchronised(rt: &impl Abort, machine: &DeviceMachine, adjustment: Units, due: Units) {
    assert!(rt; machine.state() == State::Synchronised);
    assert!(rt; machine.adjustment() == adjustment);
    assert!(rt; machine.due() == Some(due));
}

#[test]
fn each_device_has_its_machine(rt: HostRuntime) -> Result<(), Fail> {
    let machines = machines(rt.alloc())?;
    assert!(rt; machines.len() == 8);
    for (machine, (adjustment, due)) in machines.as_slice().iter().zip(&BEGINNINGS) {
        try_synchronised(&rt, machine, *adjustment, *due);
    }
    Ok(())
}

#[test]
fn a_device_that_begins_off_is_turned_on(rt: HostRuntime) -> Result<(), Fail> {
    let mut machines = machines(rt.alloc())?;
    assert!(rt; machines.len() == 8);
    let begun = machines[7].state();
    machines[7].turn_on();
    assert!(rt; [begun, machines[7].state()] == [State::Off, State::Integrating]);
    assert!(rt; machines[7].due() == None);
    Ok(())
}
