ghost use Rattle.std.specs.{List.{count_by, enumerate_from}, Prelude.{[], pos}};
ghost use Rattle.std.specs.Prelude.{◌*◌, ◌++◌, ◌+ℤ◌, ◌<ℤ◌, ◌^◌, ◌↔◌, ◌∷◌, ◌≡◌, ◌≢◌, ◌⊎◌, IsSomeAnd, IsTrue, List, Some};
ghost use Rattle.fault_hypothesis.specs.{SoundMasters.is_sound_beside, Watching.Watches};
ghost use Rattle.net_plan.specs.{Belonging.{HasDevice, IsOfNetwork}, Ranges.{IsInRange, IsLinkInRange}};
ghost use Rattle.run_law.specs.scenario.Faults.{IsBroken, IsTurnedOn};
ghost use Rattle.net_plan.specs.declared.{event.Event.{Event as EventValue}, network.Network.{Network as NetworkValue}};
ghost use Rattle.run_law.specs.scenario.Hypothesis.{BreaksNoMaster, BreaksSecond, ComesTooEarly, ComesTooLate};
ghost use Rattle.run_law.specs.scenario.Hypothesis.{CutsOtherChannel, LeavesTooFew, SendsUnbroken, SetsFastRate};
ghost use Rattle.run_law.specs.scenario.Hypothesis.{SetsLongHold, SetsOtherWire, TurnsOnAgain, Violates};

use crate::places::{begins_on, channel_of, device_at, link_at};
use crate::{Outside, Watch};
use net_plan::{Device, DeviceId, Event, Link, LinkId, Network, What};
use tte_units::Units;
use tte_units::frames::Channel;

/// The most cycles of a run.
const MOST_CYCLES: i64 = 1 << 20;

fn comes_too_late(network: &Network, event: &Event) -> bool
    requires { IsInRange network.now }
    ensures { IsTrue result ↔ ComesTooLate network.now event.now }
{
    event.time.0 > MOST_CYCLES * network.cycle.0
}

fn sets_fast_rate(network: &Network, event: &Event) -> bool
    ensures { IsTrue result ↔ SetsFastRate network.now event.now }
{
    match &event.what {
        What::Rate(_, rate) => rate.0.unsigned_abs() > network.rho,
        _ => false,
    }
}

fn sets_other_wire(network: &Network, event: &Event) -> bool
    requires { IsInRange network.now }
    ensures { IsTrue result ↔ SetsOtherWire network.now event.now }
{
    match &event.what {
        What::Wire(link, _, delay) => match link_at(network, *link) {
            Some(found) => is_other_wire(network, found, *delay),
            None => false,
        },
        _ => false,
    }
}

// Is the wire delay one that the link of the network cannot have?
fn is_other_wire(network: &Network, link: &Link, delay: Units) -> bool
    requires { IsLinkInRange network.now link.now }
    ensures { IsTrue result
        ↔ ((delay.0 <ℤ link.now.wire.0) ⊎ ((link.now.wire.0 +ℤ link.now.jitter.0) <ℤ delay.0)) }
{
    delay.0 < link.wire.0 || delay.0 > link.wire.0 + link.jitter.0
}

fn sets_long_hold(network: &Network, event: &Event) -> bool
    ensures { IsTrue result ↔ SetsLongHold network.now event.now }
{
    match &event.what {
        What::Hold(link, _, delay) => match link_at(network, *link) {
            Some(found) => delay.0 > found.hold.0,
            None => false,
        },
        _ => false,
    }
}

fn breaks_no_master(network: &Network, event: &Event) -> bool
    ensures { IsTrue result ↔ BreaksNoMaster network.now event.now }
{
    match &event.what {
        What::Break(device) => match device_at(network, *device) {
            Some(found) => !found.role.is_master(),
            None => true,
        },
        _ => false,
    }
}

// Are there both channels, and do they differ?
fn differ(a: Option<Channel>, b: Option<Channel>) -> bool
    ensures { IsTrue result ↔ IsSomeAnd a (λ x. IsSomeAnd b (λ y. x ≢ y)) }
{
    match (a, b) {
        (Some(a), Some(b)) => a != b,
        _ => false,
    }
}

impl Watch<'_> {
    /// Does the event break the condition, given the events admitted? Its device and link are the
    /// network's.
    pub(crate) fn violates(&self, event: &Event, condition: Outside) -> bool
        ensures { (network : NetworkValue) (admitted : List EventValue)
            → Watches network self.now admitted → IsOfNetwork network event.now.what
            → (IsTrue result ↔ Violates network admitted event.now condition) }
    {
        let network = self.accepted.network();
        match condition {
            Outside::Order => self.comes_too_early(event),
            Outside::Late => comes_too_late(network, event),
            Outside::Rate => sets_fast_rate(network, event),
            Outside::Wire => sets_other_wire(network, event),
            Outside::Hold => sets_long_hold(network, event),
            Outside::Channel => self.cuts_other_channel(event),
            Outside::NotMaster => breaks_no_master(network, event),
            Outside::SecondBreak => self.breaks_second(event),
            Outside::TooFewMasters => self.leaves_too_few(event),
            Outside::NotBroken => self.sends_unbroken(event),
            Outside::NotOff => self.turns_on_again(event),
        }
    }

    fn comes_too_early(&self, event: &Event) -> bool
        ensures { (network : NetworkValue) (admitted : List EventValue)
            → Watches network self.now admitted
            → (IsTrue result ↔ ComesTooEarly admitted event.now) }
    {
        match self.last {
            Some(last) => event.time.0 < last.0,
            None => false,
        }
    }

    fn cuts_other_channel(&self, event: &Event) -> bool
        ensures { (network : NetworkValue) (admitted : List EventValue)
            → Watches network self.now admitted
            → (IsTrue result ↔ CutsOtherChannel network admitted event.now) }
    {
        match &event.what {
            What::Cut(link, _) => differ(self.faulty, channel_of(self.accepted.network(), *link)),
            _ => false,
        }
    }

    fn breaks_second(&self, event: &Event) -> bool
        ensures { (network : NetworkValue) (admitted : List EventValue)
            → Watches network self.now admitted
            → (IsTrue result ↔ BreaksSecond admitted event.now) }
    {
        match &event.what {
            What::Break(_) => self.broken.is_some(),
            _ => false,
        }
    }

    fn leaves_too_few(&self, event: &Event) -> bool
        ensures { (network : NetworkValue) (admitted : List EventValue)
            → Watches network self.now admitted
            → (IsTrue result ↔ LeavesTooFew network admitted event.now) }
    {
        match &event.what {
            What::Break(device) => {
                self.sound_masters_beside(*device) < self.accepted.network().sync_threshold as usize
            }
            _ => false,
        }
    }

    // How many masters began on, and are neither broken nor this device.
    fn sound_masters_beside(&self, device: DeviceId) -> usize
        ensures { result ≡ count_by (is_sound_beside self.now.broken device)
            (enumerate_from 0 self.now.accepted.now.device) }
    {
        self.accepted
            .network()
            .device
            .as_slice()
            .iter()
            .enumerate()
            .filter(|(place, found)| is_sound_beside(self.broken, device, *place, found))
            .count()
    }

    fn sends_unbroken(&self, event: &Event) -> bool
        ensures { (network : NetworkValue) (admitted : List EventValue)
            → Watches network self.now admitted
            → (IsTrue result ↔ SendsUnbroken network admitted event.now) }
    {
        match &event.what {
            What::Send(link, _) => match link_at(self.accepted.network(), *link) {
                Some(found) => !self.is_broken(found.child),
                None => true,
            },
            _ => false,
        }
    }

    fn turns_on_again(&self, event: &Event) -> bool
        ensures { (network : NetworkValue) (admitted : List EventValue)
            → Watches network self.now admitted → IsOfNetwork network event.now.what
            → (IsTrue result ↔ TurnsOnAgain network admitted event.now) }
    {
        match &event.what {
            What::On(device) => {
                begins_on(self.accepted.network(), *device)
                    || self.is_turned_on(*device)
                    || self.is_broken(*device)
            }
            _ => false,
        }
    }

    fn is_broken(&self, device: DeviceId) -> bool
        ensures { (network : NetworkValue) (admitted : List EventValue)
            → Watches network self.now admitted
            → (IsTrue result ↔ IsBroken admitted device) }
    {
        self.broken == Some(device)
    }

    fn is_turned_on(&self, device: DeviceId) -> bool
        ensures { (network : NetworkValue) (admitted : List EventValue)
            → Watches network self.now admitted → HasDevice network device
            → (IsTrue result ↔ IsTurnedOn admitted device) }
    {
        match self.turned_on.get(device.0 as usize) {
            Some(on) => *on,
            None => false,
        }
    }
}

// Is the device at the place a master that began on, and neither the broken one nor the other?
fn is_sound_beside(broken: Option<DeviceId>, other: DeviceId, place: usize, found: &Device) -> bool
    ensures { result ≡ is_sound_beside broken other (place, found.now) }
{
    let is_broken = match broken {
        Some(broken) => broken.0 as usize == place,
        None => false,
    };
    found.role.is_master() && found.start.is_some() && !is_broken && other.0 as usize != place
}
