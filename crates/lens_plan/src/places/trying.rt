//! All rows of a message in a phase, and how well they fit.
ghost use Rattle.std.specs.Prelude.{◌++◌, ◌+◌, ◌^◌, ◌≡◌, ◌≤◌, All, IfOk, OnOk};
ghost use Rattle.net_plan.specs.{Paths.IsTree, Places.IsEndSystem};
ghost use Rattle.lens_plan.specs.places.{Placing.{IsOrdered, IsTrial}, Trying.{AreTried, HasEnds, IsPlacedTo}};
ghost use Rattle.lens_plan.specs.places.{Trying.start_of, Ways.Adds};

use crate::places::placing::{Placed, Trial, place_way};
use crate::places::ways::push_way;
use net_plan::DeviceId;
use std::alloc::Global;
use tte_io::OutOfMemory;
use tte_units::frames::Channel;

/// Where a row that leaves the sender may begin.
fn start_of(trial: &Trial<'_>) -> u64
    requires trial { IsTrial trial.now }
    requires ends { HasEnds trial.now }
    ensures value { result ≡ start_of trial.now }
    ensures bound { result ≤ 2 ^ 40 }
{
    let message = trial.message;
    let begin = trial.network.tt_start.amount();
    match message.after {
        Some(after) => begin.max(after),
        None => begin,
    }
}

/// Adds the rows of the way to the receiver by the channel.
fn place_to(
    alloc: Global,
    trial: &Trial<'_>,
    receiver: DeviceId,
    channel: Channel,
    placed: &mut Vec<Placed>,
) -> Result<(), OutOfMemory>
    requires trial { IsTrial trial.now }
    requires tree { IsTree trial.now.network.now }
    requires ends { HasEnds trial.now }
    requires receiver { IsEndSystem trial.now.network.now receiver }
    requires ordered { All IsOrdered placed.old.items }
    ensures rows { OnOk result (Adds (IsPlacedTo trial.now channel receiver) placed.old.items placed.new.items) }
    ensures ordered { OnOk result (All IsOrdered placed.new.items) }
{
    let message = trial.message;
    let mut hops = Vec::new(alloc);
    push_way(trial.network, message.sender, receiver, channel, &mut hops)?;
    place_way(trial, start_of(trial), hops.as_slice(), placed)
}

/// The rows of the ways to all receivers by both channels.
pub(crate) fn rows_of(alloc: Global, trial: &Trial<'_>) -> Result<Vec<Placed>, OutOfMemory>
    requires trial { IsTrial trial.now }
    requires tree { IsTree trial.now.network.now }
    requires ends { HasEnds trial.now }
    ensures rows { IfOk result (λ placed. AreTried trial.now trial.now.message.now.receivers placed.items) }
    ensures ordered { IfOk result (λ placed. All IsOrdered placed.items) }
{
    let message = trial.message;
    let mut placed = Vec::new(alloc);
    'receivers: for receiver in message.receivers() {
        match place_to(alloc, trial, *receiver, Channel::A, &mut placed) {
            Ok(()) => (),
            Err(OutOfMemory) => return Err(OutOfMemory),
        }
        match place_to(alloc, trial, *receiver, Channel::B, &mut placed) {
            Ok(()) => (),
            Err(OutOfMemory) => return Err(OutOfMemory),
        }
    }
    Ok(placed)
}
