//! The best phase of a message.
ghost use Rattle.std.specs.Prelude.{◌<◌, ◌↔◌, ◌≡◌, ◌≤◌, IfOk, IsTrue};
ghost use Rattle.{lens_plan.specs.places.{Placing.IsTrial, Trying.HasEnds}, net_plan.specs.Paths.IsTree};
ghost use Rattle.lens_plan.specs.places.Best.{IsAttempt, IsBest, IsBestBelow, IsBetter, in_phase};

use crate::places::placing::{Placed, Trial};
use crate::places::scoring::{Score, score_of};
use crate::places::trying::rows_of;
use std::alloc::Global;
use tte_io::OutOfMemory;

/// A message's rows in a phase.
#[derive(Drop)]
pub(crate) struct Attempt {
    pub(crate) phase: u32,
    pub(crate) placed: Vec<Placed>,
    pub(crate) score: Score,
}

/// The same trial in a phase.
fn in_phase<'a>(trial: &Trial<'a>, phase: u32) -> Trial<'a>
    ensures { result ≡ in_phase trial.now phase }
{
    Trial {
        network: trial.network,
        message: trial.message,
        phase,
        gamma: trial.gamma,
        tolerance: trial.tolerance,
        rows: trial.rows,
    }
}

/// Tries the phase.
fn attempt_in(alloc: Global, trial: &Trial<'_>, phase: u32) -> Result<Attempt, OutOfMemory>
    requires trial { IsTrial trial.now }
    requires tree { IsTree trial.now.network.now }
    requires ends { HasEnds trial.now }
    ensures { IfOk result (IsAttempt trial.now phase) }
{
    let trial = in_phase(trial, phase);
    let placed = rows_of(alloc, &trial)?;
    let score = score_of(&trial, placed.as_slice());
    Ok(Attempt {
        phase,
        placed,
        score,
    })
}

/// Is the one attempt better than the other: less is short, or as much and its last window ends earlier?
fn is_better(one: &Attempt, other: &Attempt) -> bool
    ensures { IsTrue result ↔ IsBetter one.now other.now }
{
    one.score.short < other.score.short
        || one.score.short == other.score.short && one.score.latest < other.score.latest
}

/// The best of the phases below this one, of which there is one, and the first of equals.
fn best_below(alloc: Global, trial: &Trial<'_>, phases: u32) -> Result<Attempt, OutOfMemory>
    requires trial { IsTrial trial.now }
    requires tree { IsTree trial.now.network.now }
    requires ends { HasEnds trial.now }
    requires some { 1 ≤ phases }
    ensures { IfOk result (IsBestBelow trial.now phases) }
{
    let mut best = attempt_in(alloc, trial, 0)?;
    'phases: for phase in 1..phases {
        let other = match attempt_in(alloc, trial, phase) {
            Ok(other) => other,
            Err(OutOfMemory) => return Err(OutOfMemory),
        };
        if is_better(&other, &best) {
            best = other;
        }
    }
    Ok(best)
}

/// The best phase of the message behind the rows: the one that it gives, or the best of all, and the first of equals.
pub(crate) fn best_of(alloc: Global, trial: &Trial<'_>) -> Result<Attempt, OutOfMemory>
    requires trial { IsTrial trial.now }
    requires tree { IsTree trial.now.network.now }
    requires ends { HasEnds trial.now }
    ensures { IfOk result (IsBest trial.now) }
{
    let message = trial.message;
    match message.phase {
        Some(phase) => attempt_in(alloc, trial, phase),
        None => best_below(alloc, trial, message.period),
    }
}
