ghost use Rattle.std.specs.Prelude.{◌≡◌, ◌≢◌, ◌≤◌, ◌<◌, ◌↔◌, OnOk, IfErr, IfNone, IfSome, IsTrue};
ghost use Rattle.{net_plan.specs.Ranges.IsInRange, schedule_tables.specs.Numbers.number_of};
ghost use Rattle.schedule_checker.specs.Judging.{BreaksAt, IsPlan, places_of, plan_rule, shape_rule};
ghost use Rattle.schedule_tables.specs.Rules.{IsFirstBroken, IsKept, IsKeptAt, KeepsBelow, KeepsRules};

use crate::groups::Groups;
use crate::kept::{keeps_plan_rule, keeps_shape_rule};
use crate::parts::{PlanRule, ShapeRule};
use crate::places::places_of;
use net_plan::Network;
use schedule_tables::{Entry, Rule};
use tte_units::Units;

/// A rule that the network breaks, and the first place at which it does.
#[derive(Clone, Copy)]
pub struct BrokenRule {
    pub rule: Rule,
    pub place: u32,
}

/// A network that keeps the rules of its shape, with what the other rules speak of.
#[derive(Drop)]
pub struct Plan<'a> {
    pub network: &'a Network,
    pub entries: &'a [Entry],
    pub groups: &'a Groups,
    pub beta: Units,
}

/// Judges the rules of the network's shape, in their order.
pub fn judge_shape(network: &Network) -> Result<(), BrokenRule>
    requires { IsInRange network.now }
    ensures kept { OnOk result (KeepsBelow 8 network.now) }
    ensures told { IfErr result (λ broken. IsFirstBroken network.now broken.rule broken.place) }
    ensures shape { IfErr result (λ broken. number_of broken.rule < 8) }
    ensures place { IfErr result (λ broken. broken.place < places_of broken.rule network.now) }
{
    'rules: for rule in &ShapeRule::ALL {
        match broken_shape(*rule, network) {
            None => (),
            Some(place) => return Err(BrokenRule {
                rule: rule.rule(),
                place,
            }),
        }
    }
    Ok(())
}

/// The first place at which the network breaks the rule of its shape.
fn broken_shape(rule: ShapeRule, network: &Network) -> Option<u32>
    requires { IsInRange network.now }
    ensures none { IfNone result (IsKept (shape_rule rule) network.now) }
    ensures some { IfSome result (BreaksAt network.now (shape_rule rule)) }
    ensures place { IfSome result (λ place. place < places_of (shape_rule rule) network.now) }
{
    'places: for place in 0..places_of(rule.rule(), network) {
        if !keeps_shape_rule(rule, network, place) {
            return Some(place);
        }
    }
    None
}

/// Judges the rules behind those of the shape, in their order.
pub(crate) fn judge_plan(plan: &Plan<'_>) -> Result<(), BrokenRule>
    requires plan { IsPlan plan.now }
    requires shape { KeepsBelow 8 plan.now.network.now }
    ensures kept { OnOk result (KeepsRules plan.now.network.now) }
    ensures told { IfErr result (λ broken. IsFirstBroken plan.now.network.now broken.rule broken.place) }
{
    'rules: for rule in &PlanRule::ALL {
        match broken_plan(*rule, plan) {
            None => (),
            Some(place) => return Err(BrokenRule {
                rule: rule.rule(),
                place,
            }),
        }
    }
    Ok(())
}

/// The first place at which the network breaks the rule, which is none of its shape.
pub fn broken_plan(rule: PlanRule, plan: &Plan<'_>) -> Option<u32>
    requires { IsPlan plan.now }
    ensures none { IfNone result (IsKept (plan_rule rule) plan.now.network.now) }
    ensures some { IfSome result (BreaksAt plan.now.network.now (plan_rule rule)) }
    ensures place { IfSome result (λ place. place < places_of (plan_rule rule) plan.now.network.now) }
{
    'places: for place in 0..places_of(rule.rule(), plan.network) {
        if !keeps_plan_rule(rule, plan, place) {
            return Some(place);
        }
    }
    None
}
