//! The rows of all messages, or why they have none.
ghost use Rattle.std.specs.Prelude.{◌≡◌, All, IfErr, IfOk, length};
ghost use Rattle.lens_plan.specs.places.{Fitting.IsAsked, Limits.IsWithinLimits, Planning.{IsNoPlan, IsPlaceOf}};
ghost use Rattle.lens_plan.specs.places.Planning.{IsPlan, no_order, no_places};
ghost use Rattle.net_plan.specs.{Paths.IsTree, Ranges.IsInRange};

use crate::Message;
use crate::places::best::Attempt;
use crate::places::fitting::{NoPlaces, first_attempts};
use crate::places::limits::{Excess, excess_of};
use crate::places::moving::{NoOrder, place_all};
use crate::places::ordering::order_by_room;
use crate::places::there::rows_there;
use net_plan::Network;
use std::alloc::Global;
use tte_io::OutOfMemory;

/// Why messages have no rows.
#[derive(Drop)]
pub(crate) enum NoPlan {
    /// There would be more of something than a network may have.
    Excess(Excess),
    /// The message of this place has none behind the rows that are there, with its best attempt.
    Impossible(usize, Attempt),
    /// The message of this place has none behind those placed before it in the last order, with its best attempt.
    Unplaced(usize, Attempt),
    OutOfMemory,
}

/// What follows where a message has no place behind the rows that are there.
fn no_places(why: NoPlaces) -> NoPlan
    ensures { result ≡ no_places why }
{
    match why {
        NoPlaces::Unfit(place, attempt) => NoPlan::Impossible(place, attempt),
        NoPlaces::OutOfMemory => NoPlan::OutOfMemory,
    }
}

/// What follows where messages have no places in any order that was tried.
fn no_order(why: NoOrder) -> NoPlan
    ensures { result ≡ no_order why }
{
    match why {
        NoOrder::Unplaced(place, attempt) => NoPlan::Unplaced(place, attempt),
        NoOrder::OutOfMemory => NoPlan::OutOfMemory,
    }
}

/// The rows of the messages where no limit is passed.
fn plan_within(
    alloc: Global,
    network: &Network,
    messages: &[Message],
) -> Result<Vec<Attempt>, NoPlan>
    requires range { IsInRange network.now }
    requires tree { IsTree network.now }
    requires asked { All (IsAsked network.now) messages.now }
    requires limits { IsWithinLimits network.now messages.now }
    ensures plan { IfOk result (λ attempts. IsPlan network.now messages.now attempts.items) }
    ensures none { IfErr result (IsNoPlan network.now messages.now) }
{
    let there = match rows_there(alloc, network) {
        Ok(there) => there,
        Err(OutOfMemory) => return Err(NoPlan::OutOfMemory),
    };
    let mut attempts = match first_attempts(alloc, network, messages, there.as_slice()) {
        Ok(attempts) => attempts,
        Err(why) => return Err(no_places(why)),
    };
    let mut order = match order_by_room(alloc, attempts.as_slice()) {
        Ok(order) => order,
        Err(OutOfMemory) => return Err(NoPlan::OutOfMemory),
    };
    match place_all(
        alloc,
        network,
        messages,
        there.as_slice(),
        &mut order,
        &mut attempts,
    ) {
        Ok(()) => (),
        Err(why) => return Err(no_order(why)),
    }
    Ok(attempts)
}

/// The rows of the messages for an accepted network: an attempt each, in the order of the lines.
///
/// The rows that the network has stay where they are. Each message has the best place behind those and the ones placed
/// before it. The error tells, in this order: that there would be too many virtual links or rows; the first message
/// that has no place behind the rows that are there; and, after 512 messages went to the front of the order, the next
/// one that has none.
pub(crate) fn plan_rows(
    alloc: Global,
    network: &Network,
    messages: &[Message],
) -> Result<Vec<Attempt>, NoPlan>
    requires range { IsInRange network.now }
    requires tree { IsTree network.now }
    requires asked { All (IsAsked network.now) messages.now }
    ensures plan { IfOk result (λ attempts. IsPlan network.now messages.now attempts.items) }
    ensures counted { IfOk result (λ attempts. length attempts.items ≡ length messages.now) }
    ensures none { IfErr result (IsNoPlan network.now messages.now) }
    ensures place { IfErr result (IsPlaceOf messages.now) }
{
    let found = match excess_of(alloc, network, messages) {
        Ok(found) => found,
        Err(OutOfMemory) => return Err(NoPlan::OutOfMemory),
    };
    match found {
        Some(excess) => Err(NoPlan::Excess(excess)),
        None => plan_within(alloc, network, messages),
    }
}
