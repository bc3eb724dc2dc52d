ghost use Rattle.std.specs.Prelude.{◌≡◌, IfErr, IfOk, OnOk};
ghost use Rattle.{net_plan.specs.Ranges.IsInRange, schedule_tables.specs.Rules.KeepsRules};
ghost use Rattle.{schedule_checker.specs.Refusals.IsUnfitBy, schedule_tables.specs.Numbers.number_of};

use crate::groups::groups_of;
use crate::judge::{BrokenRule, Plan, judge_plan, judge_shape};
use crate::{RuleBroken, Unfit};
use net_plan::{Network, rules_give_trees};
use schedule_tables::{Accepted, entries_of};
use std::alloc::Global;

/// Accepts the network where it keeps all rules. A network that is refused is dropped.
///
/// Its numbers lie in their ranges, as those of a network that was read do. `alloc` is for the
/// entries of its rows.
pub fn check(alloc: Global, network: Network) -> Result<Accepted, Unfit>
    requires { IsInRange network }
    ensures accepted { IfOk result (λ accepted. accepted ≡ network) }
    ensures rules { OnOk result (KeepsRules network) }
    ensures refused { IfErr result (IsUnfitBy network) }
{
    match judge(alloc, &network) {
        Ok(()) => Ok(Accepted::new(network)),
        Err(unfit) => Err(unfit),
    }
}

fn judge(alloc: Global, network: &Network) -> Result<(), Unfit>
    requires { IsInRange network.now }
    ensures rules { OnOk result (KeepsRules network.now) }
    ensures refused { IfErr result (IsUnfitBy network.now) }
{
    match judge_shape(network) {
        Ok(()) => (),
        Err(broken) => return Err(Unfit::Rule(told_of(broken))),
    }
    rules_give_trees();
    let entries = match entries_of(alloc, network) {
        Ok(entries) => entries,
        Err(_) => return Err(Unfit::OutOfMemory),
    };
    let groups = match groups_of(alloc, &entries) {
        Ok(groups) => groups,
        Err(_) => return Err(Unfit::OutOfMemory),
    };
    let plan = Plan {
        network,
        entries: &entries,
        groups: &groups,
        beta: network.beta(),
    };
    match judge_plan(&plan) {
        Ok(()) => Ok(()),
        Err(broken) => Err(Unfit::Rule(told_of(broken))),
    }
}

/// What is told of a rule that is broken: its number and the place.
fn told_of(broken: BrokenRule) -> RuleBroken
    ensures number { result.number ≡ number_of broken.rule }
    ensures index { result.index ≡ broken.place }
{
    RuleBroken {
        number: broken.rule.number(),
        index: broken.place,
    }
}
