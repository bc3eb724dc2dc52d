ghost use Rattle.std.specs.Prelude.{◌↔◌, ◌≡◌, IsTrue, List, ℕ};
ghost use Rattle.audit_devices.specs.clocks.{Brought.{bringer_as, bringer_of}, Points.{ComesTo, IsHeard}};
ghost use Rattle.{audit_devices.specs.clocks.Moments.StandsAt, audit_law.specs.law.DueRecords.ChangesState};
ghost use Rattle.net_plan.specs.{Ranges.IsInRange, declared.network.Network.{Network as NetworkValue}};
ghost use Rattle.net_plan.specs.declared.ids.DeviceId.{DeviceId as DeviceIdValue};
ghost use Rattle.run_law.specs.{device.States.state_before, records.Happenings.Happening, scenario.Scenarios.Scenario};
ghost use Rattle.sync_state.specs.declared.answers.Verdict.TheVariants.{AsyncClique, SyncClique};
ghost use Rattle.sync_state.specs.declared.state.State.TheVariants.{Integrating, Joining};

use crate::Shown;
use crate::clocks::{DeviceMoment, Point, coming_point};
use device_rules::PointVerdict;
use net_plan::{DeviceId, Network, What};
use run_law::{Judgement, NoteBody, Why};
use sync_state::State;
use sync_state::membership::Heard;

/// What a record is to the state of a device.
#[derive(Clone, Copy)]
pub enum Bringer {
    /// It turns the device on.
    TurnsOn,
    /// By it a frame tells the device the time.
    Joins,
    /// By it the device's clock is corrected.
    Corrects,
    /// It changes no state of the device.
    Other,
}

/// What a record says of a change of state.
#[derive(Clone, Copy)]
pub struct StateChange {
    pub state: State,
    pub cause: u64,
    pub why: Why,
}

impl Bringer {
    /// What a record of this body is to the device's state.
    pub fn of(device: DeviceId, body: &NoteBody) -> Bringer
        ensures { result ≡ bringer_as device body.now }
    {
        let (other, bringer) = match body {
            NoteBody::Event {
                what: What::On(other),
                ..
            } => (*other, Bringer::TurnsOn),
            NoteBody::Corrected { device: other, .. } => (*other, Bringer::Corrects),
            NoteBody::Permanent {
                device: other,
                verdict: Judgement::Integrates,
                ..
            }
            | NoteBody::Compressed {
                device: other,
                verdict: Judgement::Integrates,
                ..
            } => (*other, Bringer::Joins),
            NoteBody::Event { .. }
            | NoteBody::Arrived { .. }
            | NoteBody::Permanent { .. }
            | NoteBody::Compressed { .. }
            | NoteBody::Sent { .. }
            | NoteBody::State { .. }
            | NoteBody::Left { .. }
            | NoteBody::Lost { .. }
            | NoteBody::TtSent { .. }
            | NoteBody::Accepted { .. }
            | NoteBody::Delivered { .. }
            | NoteBody::Dropped { .. }
            | NoteBody::Clock { .. } => return Bringer::Other,
        };
        if device.0 == other.0 {
            bringer
        } else {
            Bringer::Other
        }
    }
}

/// Does the device change its state so at the moment? This is what the record of the number `cause` is to its state, or
/// `Other` where that record is none of this time. The rest is as for `coming_point`.
pub fn changes_state(
    network: &Network,
    device: DeviceId,
    shown: &Shown,
    moment: DeviceMoment,
    heard: &Heard,
    bringer: Bringer,
    said: StateChange,
) -> bool
    requires { IsInRange network.now }
    ensures { (s : Scenario) (hs : List Happening) (t : ℕ) → StandsAt s hs network.now device t moment shown.now
        → IsHeard s hs device t heard.now → bringer ≡ bringer_of hs device t said.cause
        → IsTrue result ↔ ChangesState s hs device t said.state said.cause said.why }
{
    match said.why {
        Why::On => {
            is_brought(bringer, said, Bringer::TurnsOn, State::Integrating) && !moment.broken
        }
        Why::Frame => is_brought(bringer, said, Bringer::Joins, State::Joining),
        Why::Correction => {
            is_brought(bringer, said, Bringer::Corrects, State::Synchronised)
                && is_joining(shown, moment)
        }
        Why::SyncClique => {
            is_left(said) && is_alone(coming_point(network, device, shown, moment, heard))
        }
        Why::AsyncClique => {
            is_left(said) && is_outnumbered(coming_point(network, device, shown, moment, heard))
        }
    }
}

/// Is the change brought so, and to this state?
fn is_brought(bringer: Bringer, said: StateChange, wanted: Bringer, state: State) -> bool
    ensures { IsTrue result ↔ ((bringer ≡ wanted) × (said.state ≡ state)) }
{
    bringer == wanted && said.state == state
}

/// Is the device joining?
fn is_joining(shown: &Shown, moment: DeviceMoment) -> bool
    ensures { (s : Scenario) (hs : List Happening) (network : NetworkValue) (device : DeviceIdValue) (t : ℕ)
        → StandsAt s hs network device t moment shown.now → IsTrue result ↔ (state_before s hs device t ≡ Joining) }
{
    shown.state_before(moment.turned_on) == State::Joining
}

/// Does the device lose the common time, by no record?
fn is_left(said: StateChange) -> bool
    ensures { IsTrue result ↔ ((said.state ≡ Integrating) × (said.cause ≡ 0)) }
{
    said.state == State::Integrating && said.cause == 0
}

/// Is the device alone by what the point comes to?
fn is_alone(point: Option<Point>) -> bool
    ensures { IsTrue result ↔ ((cycle : ℕ) × ComesTo point cycle SyncClique) }
{
    match point {
        Some(point) => match point.verdict {
            PointVerdict::SyncClique => true,
            PointVerdict::Cleared | PointVerdict::AsyncClique | PointVerdict::Corrected(_) => false,
        },
        None => false,
    }
}

/// Is it outnumbered?
fn is_outnumbered(point: Option<Point>) -> bool
    ensures { IsTrue result ↔ ((cycle : ℕ) × ComesTo point cycle AsyncClique) }
{
    match point {
        Some(point) => match point.verdict {
            PointVerdict::AsyncClique => true,
            PointVerdict::Cleared | PointVerdict::SyncClique | PointVerdict::Corrected(_) => false,
        },
        None => false,
    }
}
