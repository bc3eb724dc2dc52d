ghost use Rattle.std.specs.Prelude.{◌+◌, ◌<◌, ◌^◌, ◌∷◌, ◌≡◌, ◌≤◌, IsPermutation, List, Ok, false, true, ℕ};
ghost use Rattle.net_plan.specs.{Ranges.IsInRange, declared.ids.DeviceId.DeviceId as DeviceOf};
ghost use Rattle.net_plan.specs.declared.network.Network.{Network as NetworkValue};
ghost use Rattle.{pcf_codec.specs.Encoded.encoded, run_law.specs.control.Wires.{control, signal_of, timed}};
ghost use Rattle.run_law.specs.{machines.Calls.StandsFor, plain.Bodies.body_of, records.Ranks.rank};
ghost use Rattle.world_law.specs.world.{Calls.HasHeard, Outcomes.arrival_body};
ghost use Rattle.world_state.specs.queue.Places.{IsFirst};
ghost use Rattle.world_state.specs.Hearing.{AreOctetsOf, IsAsSent, MayCome, TellsBefore, arrived, frame_kept};
ghost use Rattle.world_state.specs.Hearing.{octets_kept, timed_in};
ghost use Rattle.world_state.specs.{Keeping.keeps, Sound.{AreUnderWay, rank_of}, Views.{octets_of, signal_as}};

use crate::contents::{Content, Settled, Signal, Timed};
use crate::kept::Kept;
use crate::queue::{DueAt, UnderWay};
use device_rules::frames::MadeFrame;
use device_rules::{Heading, TellsKind};
use net_plan::{DeviceId, LinkId, Network};
use run_law::plain::{PlainBody, PlainKind};
use run_law::{Arrival, Moment};
use std::marker::Model;
use tte_units::Units;
use tte_units::frames::{Mac, Pcf};

/// Takes out what is on a wire and the first of all that is under way.
#[inline(always)]
pub fn take_wire(under_way: &mut UnderWay<Content>, place: DueAt) -> Signal
    requires first { IsFirst under_way.old.entries place }
    requires sound { (network : NetworkValue) × AreUnderWay network under_way.old.entries }
    requires wire { place.rank ≡ 2 }
    ensures taken { IsPermutation under_way.old.entries (record { place = place; content = Content.Wire result }
        ∷ under_way.new.entries) }
    ensures room { under_way.old.room ≤ under_way.new.room }
{
    let Some(first) = under_way.take_first() else {
        unreachable!()
    };
    signal_in(first.content)
}

/// What is on a wire.
fn signal_in(content: Content) -> Signal
    requires { rank_of content ≡ 2 }
    ensures { content ≡ Content.Wire result }
{
    match content {
        Content::Wire(signal) => signal,
        Content::Port(_, _) => unreachable!(),
    }
}

/// What becomes of a frame of the schedule, at the device that it comes to.
fn hear_timed<M: TellsKind + Drop>(
    kept: &mut Kept<M>,
    network: &Network,
    moment: Moment,
    link: LinkId,
    frame: &Timed,
    made: &mut MadeFrame,
) -> Arrival
    requires range { IsInRange network.now }
    requires may { StandsFor (keeps M.stands) kept.old (MayCome (timed (octets_of network.now frame.now)) moment link) }
    requires as_sent { signal_of (octets_of network.now frame.now) ≡ timed (octets_of network.now frame.now) }
    ensures { (octets : List ℕ) × AreOctetsOf (timed (octets_of network.now frame.now)) octets
        × ((other : NetworkValue) (device : DeviceOf)
        → HasHeard (keeps M.stands) other device moment link octets result kept.old kept.new) }
{
    match frame {
        Timed::Made(vl, cycle) => {
            if (vl.0 as usize) < network.vl.as_slice().len() {
                return kept.hear_heading(moment, link, &Heading::made(network, *vl));
            }
            made.write(network, *vl, *cycle);
            kept.hear(moment, link, made.as_slice())
        }
        Timed::Sent(octets) => kept.hear(moment, link, octets.as_slice()),
    }
}

/// An address has six octets.
fn is_address(address: Mac)
    ensures { address < 2 ^ 48 }
{}

/// A number of 32 bits.
fn is_short(number: u32)
    ensures { number < 2 ^ 32 }
{}

/// A number of 64 bits.
fn is_long(number: u64)
    ensures { number < 2 ^ 64 }
{}

/// A control frame has octets that spell it.
fn has_octets(frame: &Pcf)
    ensures { AreOctetsOf (control (Ok frame.now)) (encoded frame.now) }
{
    is_address(frame.destination);
    is_address(frame.source);
    is_short(frame.cycle);
    is_short(frame.members.0);
    is_long(frame.clock);
}

/// What a device had to do by itself before something came to it.
#[derive(Clone, Copy)]
pub enum Before {
    /// What it has to do now.
    Same,
    /// It acted next at this reading, in units of 2^-16 ns, or never.
    Due(Option<Units>),
}

/// What becomes of what comes to a device, and what the device had to do before.
pub struct Hearing {
    pub arrival: Arrival,
    pub before: Before,
}

/// What becomes of what is on a wire, at the device that it comes to.
#[inline(always)]
pub fn hear_signal<M: TellsKind + Drop>(
    kept: &mut Kept<M>,
    network: &Network,
    moment: Moment,
    link: LinkId,
    signal: &Signal,
    made: &mut MadeFrame,
) -> Hearing
    requires range { IsInRange network.now }
    requires may { StandsFor (keeps M.stands) kept.old (MayCome (signal_as network.now signal.now) moment link) }
    requires as_sent { IsAsSent network.now signal.now }
    ensures hears { (octets : List ℕ) × AreOctetsOf (signal_as network.now signal.now) octets
        × ((other : NetworkValue) (device : DeviceOf)
        → HasHeard (keeps M.stands) other device moment link octets result.arrival kept.old kept.new) }
    ensures before { TellsBefore (keeps M.stands) kept.old kept.new result.before }
{
    match signal {
        Signal::Control(frame) => {
            has_octets(frame);
            let arrival = kept.hear_pcf(moment, link, frame);
            Hearing {
                arrival,
                before: Before::Same,
            }
        }
        Signal::Timed(frame) => {
            let before = Before::Due(kept.due());
            let arrival = hear_timed(kept, network, moment, link, frame, made);
            Hearing { arrival, before }
        }
        Signal::Octets(octets) => {
            let before = Before::Due(kept.due());
            let arrival = kept.hear(moment, link, octets.as_slice());
            Hearing { arrival, before }
        }
    }
}

/// What the record of it says.
fn kind_of(place: DueAt, arrival: &Arrival) -> PlainKind
    ensures { body_of result
        ≡ arrival_body (record { 0 = place.device }) (record { 0 = place.link }) place.cause arrival.now }
{
    let device = DeviceId(place.device);
    let link = LinkId(place.link);
    let cause = place.cause;
    match arrival {
        Arrival::Dropped(reason) => PlainKind::Dropped {
            device,
            link,
            cause,
            reason: *reason,
        },
        Arrival::Waits(frame, _)
        | Arrival::Passes(frame, _)
        | Arrival::PassesAndWaits(frame, _, _) => PlainKind::Arrived {
            device,
            link,
            cause,
            clock: frame.clock,
        },
        Arrival::Accepted(vl, cycle) => PlainKind::Accepted {
            device,
            link,
            cause,
            vl: *vl,
            cycle: *cycle,
        },
        Arrival::Delivered(vl, cycle) => PlainKind::Delivered {
            device,
            link,
            cause,
            vl: *vl,
            cycle: *cycle,
        },
    }
}

/// The frame of the record.
fn frame_of(arrival: &Arrival) -> Option<Pcf>
    ensures { result ≡ frame_kept arrival.now }
{
    match arrival {
        Arrival::Waits(frame, _)
        | Arrival::Passes(frame, _)
        | Arrival::PassesAndWaits(frame, _, _) => Some(*frame),
        Arrival::Dropped(_) | Arrival::Accepted(_, _) | Arrival::Delivered(_, _) => None,
    }
}

/// The octets of what was on the wire, where they were those of a frame of the schedule.
fn timed_of(signal: Signal) -> Option<Timed>
    ensures { result ≡ timed_in signal }
{
    match signal {
        Signal::Control(_) => None,
        Signal::Timed(octets) => Some(octets),
        Signal::Octets(given) => Some(Timed::Sent(given)),
    }
}

/// The octets of the record.
fn octets_for(arrival: &Arrival, signal: Signal) -> Option<Timed>
    ensures { result ≡ octets_kept arrival.now signal }
{
    match arrival {
        Arrival::Accepted(_, _) | Arrival::Delivered(_, _) => timed_of(signal),
        Arrival::Dropped(_)
        | Arrival::Waits(_, _)
        | Arrival::Passes(_, _)
        | Arrival::PassesAndWaits(_, _, _) => None,
    }
}

/// What was on a wire, and what becomes of it: it is seen as the record of it.
#[derive(Drop)]
pub struct Heard {
    place: DueAt,
    arrival: Arrival,
    signal: Signal,
}

impl Model for Heard {
    ghost use Rattle.world_state.specs.{Hearing.arrived, declared.contents.Settled.Settled};

    ghost Value = { Settled };

    ghost view = { λ h. arrived h.place h.arrival h.signal };
}

/// What becomes of what was on the wire.
#[inline(always)]
pub fn arrived(place: DueAt, arrival: Arrival, signal: Signal) -> Heard
    ensures { result ≡ arrived place arrival signal }
{
    Heard {
        place,
        arrival,
        signal,
    }
}

impl Heard {
    /// Whether it is a control frame that the device takes.
    #[inline(always)]
    pub fn is_taken(&self) -> bool
        ensures yes { result ≡ true → rank self.now.body ≡ 2 }
        ensures no { result ≡ false → rank self.now.body ≡ 2 → ⊥ }
    {
        match self.arrival {
            Arrival::Waits(_, _) | Arrival::Passes(_, _) | Arrival::PassesAndWaits(_, _, _) => true,
            Arrival::Dropped(_) | Arrival::Accepted(_, _) | Arrival::Delivered(_, _) => false,
        }
    }

    /// The record of it.
    #[inline(always)]
    pub fn record(self) -> Settled
        ensures { result ≡ self }
    {
        let Heard {
            place,
            arrival,
            signal,
        } = self;
        let octets = octets_for(&arrival, signal);
        let frame = frame_of(&arrival);
        let kind = kind_of(place, &arrival);
        Settled {
            body: PlainBody { kind },
            frame,
            octets,
        }
    }
}
