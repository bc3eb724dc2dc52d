//! Placing messages in one order after another: a message that has no place goes to the front.
ghost use Rattle.std.specs.Prelude.{◌≡◌, All, IfErr, OnOk, length};
ghost use Rattle.lens_plan.specs.places.{Filling.IsOrder, Fitting.IsAsked, Moving.{ArePlanned, IsNoOrder, IsReached}};
ghost use Rattle.lens_plan.specs.places.Offsets.{AreSmall};
ghost use Rattle.net_plan.specs.{Paths.IsTree, Ranges.IsInRange};

use crate::Message;
use crate::places::best::Attempt;
use crate::places::filling::fill;
use crate::places::offsets::Taken;
use crate::places::ordering::move_to_front;
use net_plan::Network;
use std::alloc::Global;
use tte_io::OutOfMemory;

/// How many moves there are at most.
const MOST_MOVES: u32 = 512;

/// Why messages have no places in any order that was tried.
#[derive(Drop)]
pub(crate) enum NoOrder {
    /// The message of this place has none in the last one, with its best attempt.
    Unplaced(usize, Attempt),
    OutOfMemory,
}

/// Places all messages behind the rows that are there, at first in this order, which is changed. Each that has no place
/// goes to the front of it, and placing begins anew, until all have places or 512 went to the front.
///
/// The attempts are left in the order of the lines. The error tells the next message that has no place.
pub(crate) fn place_all(
    alloc: Global,
    network: &Network,
    messages: &[Message],
    there: &[Taken],
    order: &mut Vec<usize>,
    attempts: &mut Vec<Attempt>,
) -> Result<(), NoOrder>
    requires range { IsInRange network.now }
    requires tree { IsTree network.now }
    requires asked { All (IsAsked network.now) messages.now }
    requires there { All AreSmall there.now }
    requires order { IsOrder (length messages.now) order.old.items }
    requires first { IsReached network.now messages.now there.now 0 order.old.items }
    requires attempts { length attempts.old.items ≡ length messages.now }
    ensures planned { OnOk result (ArePlanned network.now messages.now there.now attempts.new.items) }
    ensures unplaced { IfErr result (IsNoOrder network.now messages.now there.now) }
{
    let mut moves = 0;
    'moves: loop {
        let found = match fill(alloc, network, messages, there, order.as_slice(), attempts) {
            Ok(found) => found,
            Err(OutOfMemory) => return Err(NoOrder::OutOfMemory),
        };
        let misfit = match found {
            Some(misfit) => misfit,
            None => return Ok(()),
        };
        if moves == MOST_MOVES {
            return Err(NoOrder::Unplaced(order[misfit.turn], misfit.attempt));
        }
        match move_to_front(order, misfit.turn) {
            Ok(()) => (),
            Err(OutOfMemory) => return Err(NoOrder::OutOfMemory),
        }
        moves += 1;
    }
}
