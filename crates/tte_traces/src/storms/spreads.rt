ghost use Rattle.std.specs.Prelude.{◌^◌, ◌≡◌, ◌≤ℤ◌, ◌⊎◌, IfSome, IsSomeAnd, List, pos};
ghost use Rattle.{drift_world.specs.Locals.IsLocalValue, world_drive.specs.Observing.IsCompleteExact};
ghost use Rattle.net_plan.specs.{Ranges.IsInRange, declared.event.Event.{Event as EventValue}};
ghost use Rattle.run_law.specs.{declared.note.Note.{Note as NoteValue}, records.Happenings.happenings};
ghost use Rattle.tte_traces.specs.storms.{Answer.exact_scenario, Spreads.{IsSpreadAt, MayShowExact}};
ghost use Rattle.tte_units.specs.Amount.{amount};

use net_plan::{DeviceId, Network};
use tte_units::Units;
use world_drive::devices::whole_units;
use world_drive::exact::ExactWorld;

/// The least and the greatest of some local clocks, in units of 2^-16 ns.
#[derive(Clone, Copy)]
pub(crate) struct Ends {
    pub(crate) least: i64,
    pub(crate) greatest: i64,
}

/// How far apart the local clocks of the correct synchronised devices are at a time, after all
/// records of this time; 0 where there are none.
pub(crate) fn spread_at(world: &ExactWorld<'_>, network: &Network, t: Units) -> i64
    requires in_range { IsInRange network.now }
    requires same { world.now.network ≡ network.now }
    requires begun { pos 0 ≤ℤ t.0 }
    requires limit { t.0 ≤ℤ pos (2 ^ 60) }
    requires complete { MayShowExact world.now (amount t) }
    ensures { (events : List EventValue) (notes : List NoteValue)
        → IsCompleteExact network.now world.now (amount t) events notes
        → IsSpreadAt (exact_scenario network.now events) (happenings network.now notes) (amount t) result }
{
    let devices = network.device.as_slice().len() as u32;
    let mut ends = None;
    'devices: for device in 0..devices {
        match world.local_at(DeviceId(device), t) {
            Some(local) => ends = Some(with_local(ends, whole_units(local).0)),
            None => (),
        }
    }
    match ends {
        Some(ends) => ends.greatest - ends.least,
        None => 0,
    }
}

/// The least and the greatest, with one more.
fn with_local(ends: Option<Ends>, local: i64) -> Ends
    requires wide { IfSome ends (λ e. IsLocalValue e.least × IsLocalValue e.greatest) }
    requires local { IsLocalValue local }
    ensures wide { IsLocalValue result.least × IsLocalValue result.greatest }
    ensures least { result.least ≤ℤ local }
    ensures greatest { local ≤ℤ result.greatest }
    ensures lesser { IfSome ends (λ e. (result.least ≤ℤ e.least) × (e.greatest ≤ℤ result.greatest)) }
    ensures least_is { (result.least ≡ local) ⊎ IsSomeAnd ends (λ e. result.least ≡ e.least) }
    ensures greatest_is { (result.greatest ≡ local) ⊎ IsSomeAnd ends (λ e. result.greatest ≡ e.greatest) }
{
    match ends {
        Some(ends) => Ends {
            least: lesser(ends.least, local),
            greatest: greater(ends.greatest, local),
        },
        None => Ends {
            least: local,
            greatest: local,
        },
    }
}

fn lesser(a: i64, b: i64) -> i64
    requires a { IsLocalValue a }
    requires b { IsLocalValue b }
    ensures wide { IsLocalValue result }
    ensures one { (result ≡ b) ⊎ (result ≡ a) }
    ensures first { result ≤ℤ a }
    ensures second { result ≤ℤ b }
{
    if b < a { b } else { a }
}

fn greater(a: i64, b: i64) -> i64
    requires a { IsLocalValue a }
    requires b { IsLocalValue b }
    ensures wide { IsLocalValue result }
    ensures one { (result ≡ b) ⊎ (result ≡ a) }
    ensures first { a ≤ℤ result }
    ensures second { b ≤ℤ result }
{
    if a < b { b } else { a }
}
