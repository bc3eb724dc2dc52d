//! Whether each message has a place behind the rows that are there.
ghost use Rattle.std.specs.Prelude.{◌≡◌, All, IfErr, IfOk, length};
ghost use Rattle.lens_plan.specs.places.Fitting.{HavePlaces, HaveNoPlaces, IsAsked, IsBestBehind, IsTrialOf};
ghost use Rattle.{lens_plan.specs.places.Offsets.AreSmall, net_plan.specs.{Paths.IsTree, Ranges.IsInRange}};

use crate::Message;
use crate::places::best::{Attempt, best_of};
use crate::places::offsets::Taken;
use crate::places::placing::Trial;
use net_plan::Network;
use std::alloc::Global;
use tte_io::OutOfMemory;

/// The trial of a message behind these rows.
fn trial_of<'a>(network: &'a Network, message: &'a Message, rows: &'a [Taken]) -> Trial<'a>
    requires range { IsInRange network.now }
    requires asked { IsAsked network.now message.now }
    requires rows { All AreSmall rows.now }
    ensures { IsTrialOf network.now message.now rows.now result }
{
    let gamma = network.gamma().amount();
    Trial {
        network,
        message,
        phase: 0,
        gamma,
        tolerance: network.precision.amount() + gamma,
        rows,
    }
}

/// The best attempt of a message behind these rows.
pub(crate) fn best_behind(
    alloc: Global,
    network: &Network,
    message: &Message,
    rows: &[Taken],
) -> Result<Attempt, OutOfMemory>
    requires range { IsInRange network.now }
    requires tree { IsTree network.now }
    requires asked { IsAsked network.now message.now }
    requires rows { All AreSmall rows.now }
    ensures { IfOk result (IsBestBehind network.now rows.now message.now) }
{
    best_of(alloc, &trial_of(network, message, rows))
}

/// Why messages have no places.
#[derive(Drop)]
pub(crate) enum NoPlaces {
    /// The message of this turn, counted from 0, has none, with its best attempt.
    Unfit(usize, Attempt),
    OutOfMemory,
}

/// The best attempt of each message behind these rows, in the order of the messages.
///
/// The error tells the first one that has no place.
pub(crate) fn first_attempts(
    alloc: Global,
    network: &Network,
    messages: &[Message],
    rows: &[Taken],
) -> Result<Vec<Attempt>, NoPlaces>
    requires range { IsInRange network.now }
    requires tree { IsTree network.now }
    requires asked { All (IsAsked network.now) messages.now }
    requires rows { All AreSmall rows.now }
    ensures places { IfOk result (λ attempts.
        HavePlaces network.now rows.now messages.now (length messages.now) attempts.items) }
    ensures unfit { IfErr result (HaveNoPlaces network.now rows.now messages.now) }
{
    let mut attempts = Vec::new(alloc);
    'messages: for turn in 0..messages.len() {
        let attempt = match best_behind(alloc, network, &messages[turn], rows) {
            Ok(attempt) => attempt,
            Err(OutOfMemory) => return Err(NoPlaces::OutOfMemory),
        };
        if attempt.score.short > 0 {
            return Err(NoPlaces::Unfit(turn, attempt));
        }
        match attempts.push(attempt) {
            Ok(()) => (),
            Err(_) => return Err(NoPlaces::OutOfMemory),
        }
    }
    Ok(attempts)
}
