//! The local clocks that are told of a time.

ghost use Rattle.std.specs.{List.cons_option, Prelude.{◌++◌, ◌+ℤ◌, ◌^◌, ◌≡◌, ◌≤ℤ◌, ◌≤◌, [], neg_ℤ, pos}};
ghost use Rattle.std.specs.Prelude.{All, IfOk, IfSome, List, OnOk};
ghost use Rattle.audit_law.specs.events.Readings.{scenario_under};
ghost use Rattle.audit_sweep.specs.Indexing.{IsIndex, IsSomeIndex};
ghost use Rattle.{device_rules.specs.Widths.IsLocal, lens_clocks.specs.Telling.{IsWritable, clock_of, clocks_at}};
ghost use Rattle.net_plan.specs.{Belonging.HasDevice, Ranges.IsInRange, declared.event.Event.Event};
ghost use Rattle.run_law.specs.records.Happenings.{Happening};

use audit_devices::Shown;
use audit_law::events::reading_law;
use audit_sweep::Index;
use net_plan::{DeviceId, Network};
use std::alloc::Global;
use sync_state::State;
use tte_io::OutOfMemory;

/// The local clock of a device, in units of 2^-16 ns.
#[derive(Clone, Copy)]
pub struct DeviceClock {
    pub device: DeviceId,
    pub local: i128,
}

/// What a local clock shows that reads this.
fn local_of(shown: &Shown, reading: u64) -> i128
    ensures value { result ≡ pos reading +ℤ shown.now.adjustment }
    ensures fits { IsLocal result }
{
    i128::from(reading) + shown.adjustment()
}

/// The local clock of the device at the time, which is at most 2^60, once all records of this time have come, if the
/// device is correct and synchronised then.
fn clock_of(index: &Index, network: &Network, device: DeviceId, time: u64) -> Option<DeviceClock>
    requires index { IsSomeIndex network.now index.now }
    requires there { HasDevice network.now device }
    requires limit { time ≤ 2 ^ 60 }
    ensures writable { IfSome result (IsWritable network.now) }
    ensures is { (befallen : List Event) (hs : List Happening) → IsIndex network.now befallen hs index.now
        → result ≡ clock_of (scenario_under network.now befallen) hs time device }
{
    reading_law();
    if index.events.is_broken(device, time) {
        return None;
    }
    let shown = index.standings.before_time(device, time + 1);
    if shown.state() != State::Synchronised {
        return None;
    }
    let reading = index.events.reading(device, time);
    let local = local_of(shown, reading);
    Some(DeviceClock { device, local })
}

/// Adds the clock, if there is one.
fn push_some(clocks: &mut Vec<DeviceClock>, clock: Option<DeviceClock>) -> Result<(), OutOfMemory>
    ensures { OnOk result (clocks.new.items ≡ clocks.old.items ++ cons_option clock []) }
{
    let Some(clock) = clock else {
        return Ok(());
    };
    match clocks.push(clock) {
        Ok(()) => Ok(()),
        Err(_) => Err(OutOfMemory),
    }
}

/// The local clocks of all devices that are correct and synchronised at the time, which is at most 2^60, once all
/// records of this time have come.
///
/// Fails when memory runs out.
pub(crate) fn clocks_at(
    alloc: Global,
    index: &Index,
    network: &Network,
    time: u64,
) -> Result<Vec<DeviceClock>, OutOfMemory>
    requires range { IsInRange network.now }
    requires index { IsSomeIndex network.now index.now }
    requires limit { time ≤ 2 ^ 60 }
    ensures writable { IfOk result (λ clocks. All (IsWritable network.now) clocks.items) }
    ensures are { IfOk result (λ clocks. (befallen : List Event) (hs : List Happening)
        → IsIndex network.now befallen hs index.now
        → clocks.items ≡ clocks_at (scenario_under network.now befallen) hs time) }
{
    let mut clocks = Vec::new(alloc);
    let devices = network.device.as_slice().len() as u32;
    'devices: for place in 0..devices {
        let clock = clock_of(index, network, DeviceId(place), time);
        match push_some(&mut clocks, clock) {
            Ok(()) => (),
            Err(OutOfMemory) => return Err(OutOfMemory),
        }
    }
    Ok(clocks)
}
