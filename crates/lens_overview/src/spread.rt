//! How far apart the local clocks of a run are.
ghost use Rattle.std.specs.Prelude.{◌+ℤ◌, ◌^◌, ◌≡◌, ◌≤◌, IfSome, List, pos};
ghost use Rattle.{audit_law.specs.events.Readings.scenario_under, audit_sweep.specs.Indexing.{IsIndex, IsSomeIndex}};
ghost use Rattle.{device_rules.specs.Widths.{IsLocal, IsWide}, run_law.specs.records.Happenings.Happening};
ghost use Rattle.lens_overview.specs.Spreads.{AreWide, apart, local_at, spread_at, spread_by, with_local};
ghost use Rattle.net_plan.specs.{Belonging.HasDevice, Ranges.IsInRange, declared.event.Event.Event};

use audit_law::events::reading_law;
use audit_sweep::Index;
use net_plan::{DeviceId, Network};
use run_law::NoteBody;
use sync_state::State;

/// The least and the greatest of some local clocks, in units of 2^-16 ns.
#[derive(Clone, Copy)]
struct LocalExtremes {
    least: i128,
    greatest: i128,
}

/// How far apart the clocks of the correct synchronised devices are at the time of a correction, if there are any.
pub(crate) fn spread_by(
    network: &Network,
    index: &Index,
    time: u64,
    body: &NoteBody,
) -> Option<u128>
    requires range { IsInRange network.now }
    requires index { IsSomeIndex network.now index.now }
    requires limit { time ≤ 2 ^ 60 }
    ensures { (befallen : List Event) (hs : List Happening) → IsIndex network.now befallen hs index.now
        → result ≡ spread_by (scenario_under network.now befallen) hs time body.now }
{
    match body {
        NoteBody::Corrected { .. } => spread_at(network, index, time),
        NoteBody::Event { .. }
        | NoteBody::Arrived { .. }
        | NoteBody::Permanent { .. }
        | NoteBody::Compressed { .. }
        | NoteBody::Sent { .. }
        | NoteBody::State { .. }
        | NoteBody::Left { .. }
        | NoteBody::Lost { .. }
        | NoteBody::TtSent { .. }
        | NoteBody::Accepted { .. }
        | NoteBody::Delivered { .. }
        | NoteBody::Dropped { .. }
        | NoteBody::Clock { .. } => None,
    }
}

/// How far apart they are at the time, once all records of this time have come.
fn spread_at(network: &Network, index: &Index, time: u64) -> Option<u128>
    requires range { IsInRange network.now }
    requires index { IsSomeIndex network.now index.now }
    requires limit { time ≤ 2 ^ 60 }
    ensures { (befallen : List Event) (hs : List Happening) → IsIndex network.now befallen hs index.now
        → result ≡ spread_at (scenario_under network.now befallen) hs time }
{
    let devices = network.device.as_slice().len() as u32;
    let mut ends = None;
    'devices: for place in 0..devices {
        ends = with_local(ends, local_at(network, index, DeviceId(place), time));
    }
    match ends {
        Some(ends) => Some(apart(ends)),
        None => None,
    }
}

/// What the device's local clock shows at the time, if it is correct and synchronised.
fn local_at(network: &Network, index: &Index, device: DeviceId, time: u64) -> Option<i128>
    requires index { IsSomeIndex network.now index.now }
    requires there { HasDevice network.now device }
    requires limit { time ≤ 2 ^ 60 }
    ensures fits { IfSome result IsLocal }
    ensures is { (befallen : List Event) (hs : List Happening) → IsIndex network.now befallen hs index.now
        → result ≡ local_at (scenario_under network.now befallen) hs time device }
{
    reading_law();
    if index.events.is_broken(device, time) {
        return None;
    }
    let shown = index.standings.before_time(device, time + 1);
    if shown.state() != State::Synchronised {
        return None;
    }
    Some(clock_of(index.events.reading(device, time), shown.adjustment()))
}

/// What a local clock of this adjustment shows that reads this.
fn clock_of(reading: u64, adjustment: i128) -> i128
    requires { IsWide adjustment }
    ensures value { result ≡ pos reading +ℤ adjustment }
    ensures fits { IsLocal result }
{
    i128::from(reading) + adjustment
}

/// The ends with one more clock, if there is one.
fn with_local(ends: Option<LocalExtremes>, local: Option<i128>) -> Option<LocalExtremes>
    requires wide { AreWide ends }
    requires fits { IfSome local IsLocal }
    ensures value { result ≡ with_local ends local }
    ensures wide { AreWide result }
{
    match (ends, local) {
        (Some(ends), Some(local)) => Some(LocalExtremes {
            least: if ends.least <= local {
                ends.least
            } else {
                local
            },
            greatest: if ends.greatest <= local {
                local
            } else {
                ends.greatest
            },
        }),
        (None, Some(local)) => Some(LocalExtremes {
            least: local,
            greatest: local,
        }),
        (ends, None) => ends,
    }
}

/// How far apart the ends are.
fn apart(ends: LocalExtremes) -> u128
    requires { IsLocal ends.least × IsLocal ends.greatest }
    ensures { result ≡ apart ends }
{
    (ends.greatest - ends.least).unsigned_abs()
}
