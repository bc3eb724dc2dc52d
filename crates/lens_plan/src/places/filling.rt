//! Messages placed one after another, each behind the rows that are there and those placed before it.
ghost use Rattle.std.specs.Prelude.{◌++◌, ◌<◌, ◌^◌, ◌∷◌, ◌≡◌, ◌≤◌, All, IfOk, OnOk, Some, [], length, slice_get};
ghost use Rattle.lens_plan.specs.places.Filling.{IsEarly, IsFilling, IsOrder, rows_of, taken_of};
ghost use Rattle.lens_plan.specs.places.{Fitting.IsAsked, Offsets.AreSmall};
ghost use Rattle.net_plan.specs.{Paths.IsTree, Ranges.IsInRange};

use crate::Message;
use crate::places::best::Attempt;
use crate::places::fitting::best_behind;
use crate::places::offsets::{MessageRow, Taken};
use crate::places::placing::{Placed, port_on};
use net_plan::Network;
use std::alloc::Global;
use tte_io::OutOfMemory;

/// The row that a message takes in a phase.
fn taken_of(network: &Network, message: &Message, phase: u32, placed: &Placed) -> Taken
    requires asked { IsAsked network.now message.now }
    requires offset { placed.now.offset ≤ 2 ^ 40 }
    ensures value { result ≡ taken_of network.now message.now phase placed.now }
    ensures small { AreSmall result }
{
    Taken {
        slot: MessageRow {
            link: placed.hop.link,
            way: placed.hop.way,
            period: message.period,
            phase,
            port: port_on(network, message.length, placed.hop.link),
        },
        offset: placed.offset,
    }
}

/// Adds the row that a message takes in a phase.
fn push_row(
    network: &Network,
    message: &Message,
    phase: u32,
    placed: &Placed,
    rows: &mut Vec<Taken>,
) -> Result<(), OutOfMemory>
    requires asked { IsAsked network.now message.now }
    requires early { IsEarly placed.now }
    requires rows { All AreSmall rows.old.items }
    ensures added { OnOk result (rows.new.items
        ≡ rows.old.items ++ taken_of network.now message.now phase placed.now ∷ []) }
    ensures small { OnOk result (All AreSmall rows.new.items) }
{
    match rows.push(taken_of(network, message, phase, placed)) {
        Ok(()) => Ok(()),
        Err(_) => Err(OutOfMemory),
    }
}

/// Adds the rows that a message takes.
fn push_taken(
    network: &Network,
    message: &Message,
    attempt: &Attempt,
    rows: &mut Vec<Taken>,
) -> Result<(), OutOfMemory>
    requires asked { IsAsked network.now message.now }
    requires early { All IsEarly attempt.now.placed.items }
    requires rows { All AreSmall rows.old.items }
    ensures added { OnOk result (rows.new.items ≡ rows.old.items ++ rows_of network.now message.now attempt.now) }
    ensures small { OnOk result (All AreSmall rows.new.items) }
{
    'rows: for placed in attempt.placed.as_slice() {
        match push_row(network, message, attempt.phase, placed, rows) {
            Ok(()) => (),
            Err(OutOfMemory) => return Err(OutOfMemory),
        }
    }
    Ok(())
}

/// The message of this place.
fn message_at(messages: &[Message], place: usize) -> &Message
    requires { place < length messages.now }
    ensures { slice_get messages.now place ≡ Some result.now }
{
    &messages[place]
}

/// The first message of an order that has no place.
#[derive(Drop)]
pub(crate) struct Misfit {
    /// Its turn in the order, from 0.
    pub(crate) turn: usize,
    /// Its best attempt.
    pub(crate) attempt: Attempt,
}

/// Places the messages in this order, each behind the rows that are there and those of the ones before it. Their
/// attempts are left in the order of the lines.
///
/// It is None where all have places, and else it tells the first one that has none.
#[tactic(auto, using(crate::proofs::Orders::turn_below))]
pub(crate) fn fill(
    alloc: Global,
    network: &Network,
    messages: &[Message],
    there: &[Taken],
    order: &[usize],
    attempts: &mut Vec<Attempt>,
) -> Result<Option<Misfit>, OutOfMemory>
    requires range { IsInRange network.now }
    requires tree { IsTree network.now }
    requires asked { All (IsAsked network.now) messages.now }
    requires there { All AreSmall there.now }
    requires order { IsOrder (length messages.now) order.now }
    requires attempts { length attempts.old.items ≡ length messages.now }
    ensures is { IfOk result (IsFilling network.now messages.now there.now order.now attempts.new.items) }
    ensures counted { length attempts.new.items ≡ length messages.now }
{
    let mut rows = match Vec::from_slice(alloc, there) {
        Ok(rows) => rows,
        Err(_) => return Err(OutOfMemory),
    };
    'turns: for turn in 0..order.len() {
        let place = order[turn];
        let message = message_at(messages, place);
        let attempt = match best_behind(alloc, network, message, rows.as_slice()) {
            Ok(attempt) => attempt,
            Err(OutOfMemory) => return Err(OutOfMemory),
        };
        if attempt.score.short > 0 {
            return Ok(Some(Misfit { turn, attempt }));
        }
        match push_taken(network, message, &attempt, &mut rows) {
            Ok(()) => (),
            Err(OutOfMemory) => return Err(OutOfMemory),
        }
        attempts[place] = attempt;
    }
    Ok(None)
}
