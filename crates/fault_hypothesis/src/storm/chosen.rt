ghost use Rattle.std.specs.Prelude.{◌<◌, ◌^◌, ◌≡◌, ◌≤ℤ◌, ◌≤◌, List, Some, pos, true};
ghost use Rattle.fault_hypothesis.specs.{Watching.Watches, storm.Choosing.{hold_of, rate_of, wire_of}};
ghost use Rattle.fault_hypothesis.specs.storm.{Events.{IsDrawn, IsEventOf}, Known.KnowsBroken, Striking.Strikes};
ghost use Rattle.net_plan.specs.{Belonging.{HasLink, IsOfNetwork}, declared.event.Event.{Event as EventValue}};
ghost use Rattle.net_plan.specs.Places.{link_at};
ghost use Rattle.{net_plan.specs.Ranges.{IsInRange, IsWithin}, schedule_tables.specs.Rules.KeepsRules};
ghost use Rattle.trace_text.specs.Ranges.{IsEventInRange, IsRate, IsTime, IsWhatInRange};

use crate::Watch;
use crate::storm::draw::{Choice, StormDraw};
use crate::storm::strike::{forged_send, last_master};
use net_plan::{DeviceId, Event, Link, LinkId, Network, What};
use tte_units::{Ppb, Units};

fn rate(network: &Network, draw: StormDraw) -> Ppb
    requires { network.now.rho ≤ 1000000 }
    ensures value { result ≡ rate_of network.now draw }
    ensures range { IsRate result }
{
    let above = draw.size % (2 * network.rho + 1);
    Ppb(above as i32 - network.rho as i32)
}

fn wire(link: &Link, draw: StormDraw) -> Units
    requires jitter { IsWithin 0 (2 ^ 40) link.now.jitter }
    requires wire { IsWithin 1 (2 ^ 40) link.now.wire }
    ensures value { result ≡ wire_of link.now draw }
    ensures range { IsTime result }
{
    let more = u64::from(draw.size) % (link.jitter.amount() + 1);
    Units(link.wire.0 + more as i64)
}

fn hold(link: &Link, draw: StormDraw) -> Units
    requires { IsWithin 0 (2 ^ 40) link.now.hold }
    ensures value { result ≡ hold_of link.now draw }
    ensures range { IsTime result }
{
    Units::from_amount(u64::from(draw.size) % (link.hold.amount() + 1))
}

fn link_at(network: &Network, link: LinkId) -> &Link
    requires { HasLink network.now link }
    ensures { link_at network.now link ≡ Some result.now }
{
    &network.link.as_slice()[link.0 as usize]
}

// Writes what befalls the network by the words of a step over `what`. It is false where the network has none of what is
// chosen, which no accepted network comes to.
fn draw_in(
    network: &Network,
    broken: Option<DeviceId>,
    time: Units,
    draw: StormDraw,
    what: &mut What,
) -> bool
    requires range { IsInRange network.now }
    requires rules { KeepsRules network.now }
    requires early { pos 0 ≤ℤ time.0 }
    requires late { time.0 ≤ℤ pos (2 ^ 60) }
    ensures value { (before : List EventValue) → KnowsBroken network.now before broken
        → (result ≡ true) × IsDrawn network.now before time draw what.new }
    ensures of_network { result ≡ true → IsOfNetwork network.now what.new }
    ensures range { result ≡ true → IsWhatInRange what.new }
{
    let (device, link) = (draw.device(network), draw.link(network));
    let found = link_at(network, link);
    match draw.choice() {
        Choice::Rate => *what = What::Rate(device, rate(network, draw)),
        Choice::Wire => *what = What::Wire(link, draw.way(), wire(found, draw)),
        Choice::Hold => *what = What::Hold(link, draw.way(), hold(found, draw)),
        Choice::Cut => *what = What::Cut(link, draw.way()),
        Choice::Heal => *what = What::Heal(link, draw.way()),
        Choice::On => *what = What::On(device),
        Choice::Strike => return strike_in(network, broken, time, draw, what),
    }
    true
}

// The same where a strike is chosen: the last master breaks, or the broken one sends a forged frame.
#[inline(never)]
fn strike_in(
    network: &Network,
    broken: Option<DeviceId>,
    time: Units,
    draw: StormDraw,
    what: &mut What,
) -> bool
    requires range { IsInRange network.now }
    requires rules { KeepsRules network.now }
    requires early { pos 0 ≤ℤ time.0 }
    requires late { time.0 ≤ℤ pos (2 ^ 60) }
    ensures value { (before : List EventValue) → KnowsBroken network.now before broken
        → (result ≡ true) × Strikes network.now before time draw what.new }
    ensures of_network { result ≡ true → IsOfNetwork network.now what.new }
    ensures range { result ≡ true → IsWhatInRange what.new }
{
    match broken {
        None => match last_master(network) {
            Some(master) => {
                *what = What::Break(master);
                true
            }
            None => false,
        },
        Some(broken) => match forged_send(network, broken, time, draw) {
            Some(sent) => {
                *what = sent;
                true
            }
            None => false,
        },
    }
}

/// Writes the event at the time by the words of a step over `event`: what is drawn, where that is within the hypothesis,
/// and otherwise what stands for it, which sets the rate of the first device to 0.
pub(crate) fn choose_event(
    network: &Network,
    watch: &Watch<'_>,
    time: Units,
    draw: StormDraw,
    event: &mut Event,
)
    requires range { IsInRange network.now }
    requires rules { KeepsRules network.now }
    requires early { pos 0 ≤ℤ time.0 }
    requires late { time.0 ≤ℤ pos (2 ^ 60) }
    ensures value { (before : List EventValue) → Watches network.now watch.now before
        → IsEventOf network.now before time draw event.new }
    ensures time { event.new.time ≡ time }
    ensures of_network { IsOfNetwork network.now event.new.what }
    ensures range { IsEventInRange event.new }
{
    event.time = time;
    if draw_in(network, watch.broken(), time, draw, &mut event.what) {
        match watch.judge(event) {
            Ok(()) => return,
            Err(_) => (),
        }
    }
    event.what = What::Rate(DeviceId(0), Ppb(0));
}
