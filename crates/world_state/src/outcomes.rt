ghost use Rattle.std.specs.{Prelude.{◌+◌, ◌-◌, ◌<◌, ◌≡◌, ◌≤◌, List, Some}, VecDeque.{deque_capacity, deque_len}};
ghost use Rattle.{net_plan.specs.declared.network.Network.Network, world_law.specs.world.Outcomes.judged_as};
ghost use Rattle.{run_law.specs.plain.Bodies.body_of, world_state.specs.Acting.sent_by};
ghost use Rattle.world_state.specs.Acting.{bare, clique_by, corrected_by, emitted_by, first_by, framed, joined_by};
ghost use Rattle.world_state.specs.{Places.IsSomePut, declared.contents.Settled.{Settled as SettledValue}};

use crate::changes::{Change, put_change};
use crate::contents::Settled;
use crate::settled::put_some;
use compression::Compressed;
use device_rules::frames::integration_frame;
use net_plan::{DeviceId, Network};
use run_law::plain::{PlainBody, PlainKind};
use run_law::{Judgement, Ripe, Why};
use std::collections::VecDeque;
use sync_state::{State, Verdict};
use tte_units::Units;
use tte_units::frames::Pcf;

/// The records of an act, in their order: at most two.
#[derive(Drop)]
pub struct Outcomes {
    /// The first, if there is one.
    pub first: Option<Settled>,
    /// The second, if there is one: a change of state.
    pub second: Option<Change>,
}

/// A record that is of no frame.
pub fn bare(kind: PlainKind) -> Settled
    ensures { result ≡ bare (body_of kind) }
{
    Settled {
        body: PlainBody { kind },
        frame: None,
        octets: None,
    }
}

/// A record of a control frame.
fn framed(kind: PlainKind, frame: Pcf) -> Settled
    ensures { result ≡ framed (body_of kind) frame }
{
    Settled {
        body: PlainBody { kind },
        frame: Some(frame),
        octets: None,
    }
}

/// The record of a master's frame.
#[inline(always)]
pub fn sent(device: DeviceId, frame: Pcf) -> Outcomes
    ensures { result ≡ sent_by device frame }
{
    let kind = PlainKind::Sent {
        device,
        cycle: frame.cycle,
    };
    Outcomes {
        first: Some(framed(kind, frame)),
        second: None,
    }
}

/// How a device judges a frame of its own.
fn judged(heard: Ripe) -> Judgement
    ensures { result ≡ judged_as heard }
{
    match heard {
        Ripe::Opened => Judgement::Opened,
        Ripe::Joined => Judgement::Joined,
        Ripe::Repeat => Judgement::Repeat,
        Ripe::Within => Judgement::Within,
        Ripe::Outside => Judgement::Outside,
        Ripe::Integrates => Judgement::Integrates,
        Ripe::Ignored | Ripe::Dropped(_) => Judgement::Ignored,
    }
}

/// The change of state of a device, where a frame of its own, the record of this number, tells it the time.
fn joined(number: u64, device: DeviceId, heard: Ripe) -> Option<Change>
    ensures { result ≡ joined_by number device heard }
{
    match heard {
        Ripe::Integrates => Some(Change {
            device,
            state: State::Joining,
            cause: number,
            why: Why::Frame,
        }),
        _ => None,
    }
}

/// The records of the frame of a collection. The first will have this number.
#[inline(always)]
pub fn emitted(
    network: &Network,
    number: u64,
    device: DeviceId,
    sent: Compressed,
    heard: Ripe,
) -> Outcomes
    ensures { result ≡ emitted_by network.now number device sent heard }
{
    let kind = PlainKind::Compressed {
        device,
        opened: sent.opened,
        at: sent.at,
        cycle: sent.cycle,
        members: sent.members,
        verdict: judged(heard),
    };
    let frame = integration_frame(network, device, sent.cycle, sent.members);
    Outcomes {
        first: Some(framed(kind, frame)),
        second: joined(number, device, heard),
    }
}

/// The change of state of a joiner that corrects its clock by the record of this number.
fn first_correction(number: u64, device: DeviceId, was: State) -> Option<Change>
    ensures { result ≡ first_by number device was }
{
    match was {
        State::Joining => Some(Change {
            device,
            state: State::Synchronised,
            cause: number,
            why: Why::Correction,
        }),
        State::Off | State::Integrating | State::Synchronised => None,
    }
}

/// The record that a device is in a clique.
fn clique(device: DeviceId, why: Why) -> Outcomes
    ensures { result ≡ clique_by device why }
{
    Outcomes {
        first: Some(bare(PlainKind::State {
            device,
            state: State::Integrating,
            cause: 0,
            why,
        })),
        second: None,
    }
}

/// The records of a correction point of a device that was in this state, and has this adjustment then. The first will
/// have this number.
#[inline(always)]
pub fn corrected(
    number: u64,
    device: DeviceId,
    was: State,
    cycle: u32,
    adjustment: Units,
    verdict: Verdict,
) -> Outcomes
    ensures { result ≡ corrected_by number device was cycle adjustment verdict }
{
    match verdict {
        Verdict::Corrected(by) => Outcomes {
            first: Some(bare(PlainKind::Corrected {
                device,
                cycle,
                by,
                adjustment,
            })),
            second: first_correction(number, device, was),
        },
        Verdict::SyncClique => clique(device, Why::SyncClique),
        Verdict::AsyncClique => clique(device, Why::AsyncClique),
        Verdict::Cleared => Outcomes {
            first: None,
            second: None,
        },
    }
}

/// Puts the records of an act in at their places.
#[inline(always)]
pub fn put_both(settled: &mut VecDeque<Settled>, outcomes: Outcomes)
    requires { deque_len settled.old + 2 ≤ deque_capacity settled.old }
    ensures { (mid : List SettledValue) × IsSomePut outcomes.first settled.old.items mid
        × IsSomePut outcomes.second mid settled.new.items }
{
    let Outcomes { first, second } = outcomes;
    put_some(settled, first);
    put_change(settled, second);
}
