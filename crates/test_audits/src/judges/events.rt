ghost use Rattle.std.specs.Prelude.{◌≡◌, ◌≤◌, ◌<◌, [], IfOk, length, unsigned_abs};
ghost use Rattle.{audit_law.specs.events.Remembering.{Remembers, RemembersSome}, net_plan.specs.Ranges.IsInRange};

use crate::judges::networks::master;
use audit_law::events::{EventHistory, OutOfMemory, Settings, reading_law};
use net_plan::{DeviceId, Event, LinkId, Network, Way, What};
use std::test::Fail;
use tte_units::{Ppb, Units};

#[test]
fn a_setting_changes_at_its_times(rt: HostRuntime) -> Result<(), Fail> {
    let mut speed = Settings::new(rt.alloc(), 3);
    assert!(rt; speed.at(u64::MAX) == 3);
    speed.set(10, 5)?;
    speed.set(10, 7)?;
    speed.set(20, 9)?;
    let told = [speed.at(9), speed.at(10), speed.at(19), speed.at(20)];
    assert!(rt; told == [3, 7, 7, 9]);
    assert!(rt; speed.after(10).len() == 1);
    Ok(())
}

// Adds the event that sets the first device's rate at time 0.
fn set_rate(network: &Network, history: &mut EventHistory, rate: Ppb) -> Result<(), OutOfMemory>
    requires range { IsInRange network.now }
    requires untouched { Remembers network.now [] history.old }
    requires device { 0 < length network.now.device }
    requires slow { unsigned_abs rate.0 ≤ network.now.rho }
    ensures { IfOk result (λ _. RemembersSome history.new) }
{
    let _network = network;
    let event = Event {
        time: Units(0),
        what: What::Rate(DeviceId(0), rate),
    };
    history.add(&event)
}

#[test]
fn where_no_event_came_nothing_is_changed(rt: HostRuntime) -> Result<(), Fail> {
    reading_law();
    let network = master(rt.alloc())?;
    let history = EventHistory::new(rt.alloc(), &network)?;
    let (device, link) = (DeviceId(0), LinkId(0));
    let told = [
        history.reading(device, 1_500_000_000),
        history.delay(link, Way::Down, 7),
        history.hold(link, Way::Up, 7),
    ];
    assert!(rt; told == [1_500_000_000, 32_768_000, 0]);
    let befallen = [
        history.is_cut(link, Way::Up, 7),
        history.is_broken(device, 7),
        history.is_turned_on_at(device, 7),
    ];
    assert!(rt; befallen == [false, false, false]);
    Ok(())
}

#[test]
fn a_rate_that_is_set_drifts_the_clock(rt: HostRuntime) -> Result<(), Fail> {
    reading_law();
    let network = master(rt.alloc())?;
    let mut history = EventHistory::new(rt.alloc(), &network)?;
    let device = DeviceId(0);
    assert!(rt; network.rho == 50_000 && network.device.as_slice().len() == 2);
    set_rate(&network, &mut history, Ppb(50_000))?;
    assert!(rt; history.reading(device, 1_500_000_000) == 1_500_075_000);
    let reached = [
        history.reach(device, 0, 131_072_000_000, 1 << 60),
        history.reach(device, 0, 131_072_000_000, 131_065_446_727),
        history.reach(device, 5, -1, 5),
    ];
    assert!(rt; reached == [Some(131_065_446_728), None, Some(5)]);
    Ok(())
}
