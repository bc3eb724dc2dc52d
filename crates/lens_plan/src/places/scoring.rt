//! How well the rows of a message fit the cycle and what is asked for.
ghost use Rattle.std.specs.Prelude.{◌≡◌, if◌then◌else◌, min};
ghost use Rattle.lens_plan.specs.places.{Placing.IsTrial, Scoring.{is_last, limit_of, schedule_end, score_of}};
ghost use Rattle.lens_plan.specs.places.Scoring.{with_row};
ghost use Rattle.net_plan.specs.Ranges.{IsInRange};

use crate::messages::is_end_system;
use crate::places::placing::{Placed, Trial};
use crate::places::ways::Hop;
use net_plan::{Network, Way};

/// How well rows fit, in units of 2^-16 ns.
#[derive(Clone, Copy)]
pub(crate) struct Score {
    /// By how much the row that ends latest for its limit ends behind it.
    pub(crate) short: u64,
    /// When the last window of a receiver ends.
    pub(crate) latest: u64,
    /// How much each row might end later.
    pub(crate) room: u64,
}

/// Where windows of the schedule may end.
pub(crate) fn schedule_end(network: &Network) -> u64
    requires { IsInRange network.now }
    ensures { result ≡ schedule_end network.now }
{
    let precision = network.precision.amount();
    network.cycle.amount().saturating_sub(4 * precision)
}

/// Does the row enter an end system?
pub(crate) fn is_last(network: &Network, hop: Hop) -> bool
    ensures { result ≡ is_last network.now hop }
{
    match hop.way {
        Way::Up => false,
        Way::Down => match network.link.as_slice().get(hop.link.0 as usize) {
            Some(link) => is_end_system(network, link.child),
            None => false,
        },
    }
}

/// Where the window of the row is to end at the latest.
pub(crate) fn limit_of(trial: &Trial<'_>, hop: Hop) -> u64
    requires { IsTrial trial.now }
    ensures { result ≡ limit_of trial.now hop }
{
    let message = trial.message;
    let end = schedule_end(trial.network);
    match message.by {
        Some(by) => if_last(trial, hop, by, end),
        None => end,
    }
}

/// The lesser of the two limits for a row that enters an end system, and the second one for any other.
fn if_last(trial: &Trial<'_>, hop: Hop, by: u64, end: u64) -> u64
    ensures { result ≡ (if is_last trial.now.network.now hop then min by end else end) }
{
    if is_last(trial.network, hop) {
        by.min(end)
    } else {
        end
    }
}

/// The score with one more row.
fn with_row(trial: &Trial<'_>, score: Score, placed: &Placed) -> Score
    requires { IsTrial trial.now }
    ensures { result ≡ with_row trial.now score placed.now }
{
    let limit = limit_of(trial, placed.hop);
    let latest = if is_last(trial.network, placed.hop) {
        score.latest.max(placed.end)
    } else {
        score.latest
    };
    Score {
        short: score.short.max(placed.end.saturating_sub(limit)),
        latest,
        room: score.room.min(limit.saturating_sub(placed.end)),
    }
}

/// How well these rows fit.
pub(crate) fn score_of(trial: &Trial<'_>, placed: &[Placed]) -> Score
    requires { IsTrial trial.now }
    ensures { result ≡ score_of trial.now placed.now }
{
    let mut score = Score {
        short: 0,
        latest: 0,
        room: schedule_end(trial.network),
    };
    'rows: for row in placed {
        score = with_row(trial, score, row);
    }
    score
}
