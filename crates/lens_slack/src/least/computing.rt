//! The least times, one after another. Nothing is searched for.
ghost use Rattle.std.specs.Prelude.{◌*◌, ◌+◌, ◌^◌, ◌≡◌, ◌≤◌, ℕ};
ghost use Rattle.{lens_slack.specs.least.{Least.AreLeast, Parts.drift_over}, schedule_checker.specs.Timing.errors_of};
ghost use Rattle.{net_plan.specs.Ranges.IsInRange, schedule_tables.specs.Rules.KeepsBelow};

use crate::least::Times;
use crate::least::parts::{greater, greatest_start, longest_delay, slowest_port, steady_beta};
use net_plan::{Network, rules_give_trees};

/// Rates are parts of this many.
const WHOLE: u128 = 1_000_000_000;

/// The least times of a network that keeps the rules of its shape.
pub(crate) fn least_times(network: &Network) -> Times
    requires range { IsInRange network.now }
    requires shape { KeepsBelow 8 network.now }
    ensures least { AreLeast network.now result }
    ensures bound { result.tt_start + 4 * result.precision ≤ 2 ^ 60 }
{
    rules_give_trees();
    let path = longest_delay(network);
    let dmax = least_dmax(network, steady_beta(network) + path);
    // The least dmax is beta and the longest path, and no more.
    let errors = errors_at(network, dmax - path);
    let settled = greater(errors, greatest_start(network));
    let precision = greater(settled + 2 * errors, network.calc.amount());
    let correction = 2 * dmax + network.calc.amount() + 10 * precision;
    Times {
        dmax,
        settled,
        precision,
        correction,
        tt_start: correction + dmax + 4 * precision + slowest_port(network),
    }
}

/// The least dmax that has room for so much and the drift over dmax itself.
fn least_dmax(network: &Network, need: u64) -> u64
    requires range { IsInRange network.now }
    requires some { 1 ≤ need }
    requires few { need ≤ 2 ^ 46 }
    ensures fixed { result ≡ need + drift_over network.now result }
    ensures least { (dmax : ℕ) → need + drift_over network.now dmax ≤ dmax → result ≤ dmax }
    ensures bound { result ≤ 2 * need }
{
    let left = WHOLE - 4 * u128::from(network.rho);
    ((u128::from(need) - 1) * WHOLE / left) as u64 + 1
}

/// The errors of a resynchronisation at this beta.
fn errors_at(network: &Network, beta: u64) -> u64
    requires range { IsInRange network.now }
    requires few { beta ≤ 2 ^ 47 }
    ensures value { result ≡ errors_of network.now beta }
    ensures bound { result ≤ 2 ^ 51 }
{
    8 * beta + 12 * network.gamma().amount() + 40 * network.grain.amount()
}
