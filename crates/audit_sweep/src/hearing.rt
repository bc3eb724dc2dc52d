//! How devices hear frames: what becomes of those that are permanent, and what compression masters send.

ghost use Rattle.std.specs.Prelude.{◌<◌, ◌^◌, ◌↔◌, ◌∷◌, ◌≡◌, ◌≤◌, IsTrue, List, ℕ};
ghost use Rattle.{audit_devices.specs.Showing.{NoneLater, Shows}, run_law.specs.device.States.state_at_hearing};
ghost use Rattle.{audit_devices.specs.permanence.Hearers.IsHearer, audit_law.specs.events.Readings.scenario_under};
ghost use Rattle.audit_sweep.specs.{Hearings.{IsHeardBefore, IsRipenedOrNone}, Knowing.{IsKnown, KnowsSome}};
ghost use Rattle.{audit_sweep.specs.Passing.IsPassable, tte_units.specs.declared.units.Units.{Units as UnitsValue}};
ghost use Rattle.{device_rules.specs.Widths.IsWide, net_plan.specs.Belonging.HasDevice};
ghost use Rattle.{net_plan.specs.{Ranges.IsInRange, declared.event.Event.Event}, run_law.specs.control.Emissions.Emits};
ghost use Rattle.run_law.specs.control.Permanence.{BecomesPermanent, IsJudgedBy, before_permanence, ripe_as};
ghost use Rattle.run_law.specs.{declared.steps.Ripe.TheVariants.Dropped, records.Happenings.{Happening, earlier}};

use crate::known::Known;
use crate::passage::Passage;
use crate::ripening::{PermanentFrame, permanent_frame};
use audit_devices::Shown;
use audit_devices::clocks::DeviceMoment;
use audit_devices::permanence::Hearer;
use compression::Compressed;
use net_plan::{DeviceId, Network};
use run_law::{Judgement, Reason, Ripe};
use sync_state::State;
use tte_units::Units;

/// What becomes of a frame that is permanent at its point.
#[derive(Clone, Copy)]
pub(crate) struct PermanentAs {
    pub(crate) point: Units,
    pub(crate) is: Ripe,
}

/// Is the frame of the other record permanent so, at the point, and judged so?
pub(crate) fn becomes_permanent(
    known: &Known,
    network: &Network,
    passage: Passage,
    point: Units,
    verdict: Judgement,
) -> bool
    requires range { IsInRange network.now }
    requires known { KnowsSome network.now known.now }
    requires passable { IsPassable network.now passage }
    ensures { (befallen : List Event) (hs : List Happening) → IsKnown network.now befallen hs known.now
        → IsTrue result ↔ BecomesPermanent (scenario_under network.now befallen) hs passage.device passage.time
        passage.link passage.cause point (ripe_as verdict) }
{
    match what_becomes(known, network, passage) {
        Some(ripened) => is_same_point(ripened.point, point) && is_judged(ripened.is, verdict),
        None => false,
    }
}

/// Is the frame of the other record dropped for the reason, as it is permanent so?
pub(crate) fn drops(known: &Known, network: &Network, passage: Passage, reason: Reason) -> bool
    requires range { IsInRange network.now }
    requires known { KnowsSome network.now known.now }
    requires passable { IsPassable network.now passage }
    ensures { (befallen : List Event) (hs : List Happening) → IsKnown network.now befallen hs known.now
        → IsTrue result ↔ ((point : UnitsValue) × BecomesPermanent (scenario_under network.now befallen) hs
        passage.device passage.time passage.link passage.cause point (Dropped reason)) }
{
    match what_becomes(known, network, passage) {
        Some(ripened) => is_dropped(ripened.is, reason),
        None => false,
    }
}

/// What becomes of the frame of the other record that is permanent so, if one is.
fn what_becomes(known: &Known, network: &Network, passage: Passage) -> Option<PermanentAs>
    requires range { IsInRange network.now }
    requires known { KnowsSome network.now known.now }
    requires passable { IsPassable network.now passage }
    ensures { (befallen : List Event) (hs : List Happening) → IsKnown network.now befallen hs known.now
        → IsRipenedOrNone (scenario_under network.now befallen) hs passage result }
{
    match permanent_frame(known, network, passage) {
        Some(permanent) => Some(PermanentAs {
            point: permanent.point,
            is: ripening(known, network, passage, &permanent),
        }),
        None => None,
    }
}

/// What becomes of the frame that is permanent so.
fn ripening(known: &Known, network: &Network, passage: Passage, permanent: &PermanentFrame) -> Ripe
    requires range { IsInRange network.now }
    requires known { KnowsSome network.now known.now }
    requires passable { IsPassable network.now passage }
    ensures { (befallen : List Event) (hs : List Happening) → IsKnown network.now befallen hs known.now
        → IsJudgedBy (scenario_under network.now befallen) (before_permanence hs passage.device passage.time
        passage.link passage.cause permanent.now.frame permanent.now.point) passage.device passage.time
        permanent.now.frame permanent.now.point result }
{
    let PermanentFrame { frame, point } = permanent;
    let Passage {
        device,
        link,
        cause,
        time,
    } = passage;
    let shown = known
        .standings
        .before_permanence(device, time, frame.members, link, cause, *point);
    let stretch = known
        .stretches
        .before_permanence(device, time, link, cause, frame, *point);
    hearer(known, network, device, time, shown).ripening(&stretch, frame, *point)
}

/// Does the compression master send this so, and hear it so?
pub(crate) fn emits(
    known: &Known,
    network: &Network,
    device: DeviceId,
    time: u64,
    sent: &Compressed,
    verdict: Judgement,
) -> bool
    requires range { IsInRange network.now }
    requires known { KnowsSome network.now known.now }
    requires there { HasDevice network.now device }
    requires limit { time ≤ 2 ^ 60 }
    ensures { (befallen : List Event) (hs : List Happening) → IsKnown network.now befallen hs known.now
        → IsHeardBefore time hs
        → IsTrue result ↔ Emits (scenario_under network.now befallen) hs device time sent.now verdict }
{
    let hearer = hearer(known, network, device, time, known.standings.latest(device));
    let stretch = known.stretches.latest(device);
    let moment = DeviceMoment::of(&known.events, device, time);
    match hearer.emission(&stretch, sent, time, moment.readings, moment.broken) {
        Some(heard) => is_same_judgement(heard, verdict),
        None => false,
    }
}

/// How the device hears a frame at the time, by records that show this of it.
fn hearer<'a>(
    known: &Known,
    network: &'a Network,
    device: DeviceId,
    time: u64,
    shown: &Shown,
) -> Hearer<'a>
    requires known { KnowsSome network.now known.now }
    requires there { HasDevice network.now device }
    ensures wide { IsWide result.adjustment }
    ensures of { (result.network.now ≡ network.now) × (result.device ≡ device) }
    ensures is { (befallen : List Event) (hs judged : List Happening) → IsKnown network.now befallen hs known.now
        → IsHeardBefore time judged → earlier time judged ≡ earlier time hs
        → Shows (scenario_under network.now befallen) judged device shown.now
        → IsHearer (scenario_under network.now befallen) judged time result }
{
    Hearer {
        network,
        device,
        state: state_at_hearing(known, network, device, time, shown),
        adjustment: shown.adjustment(),
    }
}

/// The device's state when it hears a frame at the time, by records that show this of it.
fn state_at_hearing(
    known: &Known,
    network: &Network,
    device: DeviceId,
    time: u64,
    shown: &Shown,
) -> State
    requires known { KnowsSome network.now known.now }
    requires there { HasDevice network.now device }
    ensures { (befallen : List Event) (hs judged : List Happening) → IsKnown network.now befallen hs known.now
        → NoneLater time judged → earlier time judged ≡ earlier time hs
        → Shows (scenario_under network.now befallen) judged device shown.now
        → result ≡ state_at_hearing (scenario_under network.now befallen) judged device time }
{
    if shown.has_joined_at(time) {
        return State::Joining;
    }
    known
        .standings
        .before_time(device, time)
        .state_before(known.events.is_turned_on_at(device, time))
}

fn is_same_point(point: Units, other: Units) -> bool
    ensures { IsTrue result ↔ (point ≡ other) }
{
    point == other
}

fn is_same_judgement(verdict: Judgement, other: Judgement) -> bool
    ensures { IsTrue result ↔ (verdict ≡ other) }
{
    verdict == other
}

/// Is it judged so?
fn is_judged(is: Ripe, verdict: Judgement) -> bool
    ensures { IsTrue result ↔ (is ≡ ripe_as verdict) }
{
    let judged = match is {
        Ripe::Opened => Judgement::Opened,
        Ripe::Joined => Judgement::Joined,
        Ripe::Repeat => Judgement::Repeat,
        Ripe::Within => Judgement::Within,
        Ripe::Outside => Judgement::Outside,
        Ripe::Integrates => Judgement::Integrates,
        Ripe::Ignored => Judgement::Ignored,
        Ripe::Dropped(_) => return false,
    };
    is_same_judgement(judged, verdict)
}

/// Is it dropped for the reason?
fn is_dropped(is: Ripe, reason: Reason) -> bool
    ensures { IsTrue result ↔ (is ≡ Dropped reason) }
{
    match is {
        Ripe::Dropped(found) => found == reason,
        Ripe::Opened
        | Ripe::Joined
        | Ripe::Repeat
        | Ripe::Within
        | Ripe::Outside
        | Ripe::Integrates
        | Ripe::Ignored => false,
    }
}
