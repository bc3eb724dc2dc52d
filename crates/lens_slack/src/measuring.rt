//! What is found of a network, step by step.
ghost use Rattle.std.specs.Prelude.{◌++◌, ◌<◌, ◌≡◌, All, IfOk, OnOk};
ghost use Rattle.lens_slack.specs.{Finds.{AreOf, IsFoundIn, some_found}, Writing.{HasEndingPlace, IsWritable}};
ghost use Rattle.lens_slack.specs.Spots.{IsSpotOf, IsTightestOf, channel_of, spot_at, spots_of};
ghost use Rattle.{lens_slack.specs.Taking.{Judges, Pushes, Takes}, schedule_checker.specs.Judging.{IsPlan, plan_rule}};
ghost use Rattle.net_plan.specs.{Ranges.{IsInRange}, declared.network.Network.{Network as NetworkValue}};

use crate::bounds::tightest_at;
use crate::step::Step;
use crate::tightest::tighter_of;
use crate::{BoundedNumber, Finding, Measure};
use net_plan::{DeviceId, Network, RowId, rules_give_trees};
use schedule_checker::{Plan, PlanRule, broken_plan, groups_of, judge_shape};
use schedule_tables::{Rule, entries_of};
use std::alloc::Global;
use tte_io::OutOfMemory;
use tte_units::frames::Channel;

/// How it ends.
#[derive(Clone, Copy)]
pub(crate) enum Ending {
    /// All steps were taken.
    Whole,
    /// A rule that is no inequality is broken, first at this place.
    Broken(Rule, u32),
}

/// What was found, and how it ends.
#[derive(Drop)]
pub(crate) struct Slack {
    pub(crate) findings: Vec<Finding>,
    pub(crate) ending: Ending,
}

/// What is found of a network by these steps, behind the rules of its shape.
pub(crate) fn slack_of(
    alloc: Global,
    network: &Network,
    steps: &[Step],
) -> Result<Slack, OutOfMemory>
    requires { IsInRange network.now }
    ensures found { IfOk result (λ s. IsFoundIn network.now steps.now s.findings.items s.ending) }
    ensures writable { IfOk result (λ s. All (IsWritable network.now) s.findings.items) }
    ensures place { IfOk result (λ s. HasEndingPlace network.now s.ending) }
{
    match judge_shape(network) {
        Ok(()) => (),
        Err(broken) => return Ok(Slack {
            findings: Vec::new(alloc),
            ending: Ending::Broken(broken.rule, broken.place),
        }),
    }
    rules_give_trees();
    let entries = match entries_of(alloc, network) {
        Ok(entries) => entries,
        Err(_) => return Err(OutOfMemory),
    };
    let groups = match groups_of(alloc, &entries) {
        Ok(groups) => groups,
        Err(_) => return Err(OutOfMemory),
    };
    let plan = Plan {
        network,
        entries: &entries,
        groups: &groups,
        beta: network.beta(),
    };
    take_steps(alloc, &plan, steps)
}

/// Takes the steps, up to a rule that is broken.
fn take_steps(alloc: Global, plan: &Plan<'_>, steps: &[Step]) -> Result<Slack, OutOfMemory>
    requires { IsPlan plan.now }
    ensures are { IfOk result (λ s. AreOf plan.now.network.now steps.now s.findings.items s.ending) }
    ensures place { IfOk result (λ s. HasEndingPlace plan.now.network.now s.ending) }
{
    let mut findings = Vec::new(alloc);
    'steps: for step in steps {
        match take_step(plan, *step, &mut findings) {
            Ok(Ending::Whole) => (),
            Ok(Ending::Broken(rule, place)) => {
                let ending = Ending::Broken(rule, place);
                return Ok(Slack { findings, ending });
            }
            Err(OutOfMemory) => return Err(OutOfMemory),
        }
    }
    Ok(Slack {
        findings,
        ending: Ending::Whole,
    })
}

/// Takes a step. The ending is Whole where the steps go on.
fn take_step(
    plan: &Plan<'_>,
    step: Step,
    findings: &mut Vec<Finding>,
) -> Result<Ending, OutOfMemory>
    requires { IsPlan plan.now }
    ensures takes { IfOk result (Takes plan.now.network.now step findings.old.items findings.new.items) }
    ensures place { IfOk result (HasEndingPlace plan.now.network.now) }
{
    match step {
        Step::Judged(rule) => Ok(judged(plan, rule)),
        Step::Measured(measure) => match push_some(findings, tightest_of(plan, measure)) {
            Ok(()) => Ok(Ending::Whole),
            Err(OutOfMemory) => Err(OutOfMemory),
        },
        Step::Listed(measure) => match push_spots(plan, measure, findings) {
            Ok(()) => Ok(Ending::Whole),
            Err(OutOfMemory) => Err(OutOfMemory),
        },
    }
}

/// Is the rule broken, and where first?
fn judged(plan: &Plan<'_>, rule: PlanRule) -> Ending
    requires { IsPlan plan.now }
    ensures judges { Judges plan.now.network.now (plan_rule rule) result }
    ensures place { HasEndingPlace plan.now.network.now result }
{
    match broken_plan(rule, plan) {
        None => Ending::Whole,
        Some(place) => Ending::Broken(rule.rule(), place),
    }
}

/// Adds the finding, if there is one.
fn push_some(findings: &mut Vec<Finding>, finding: Option<Finding>) -> Result<(), OutOfMemory>
    ensures { OnOk result (findings.new.items ≡ findings.old.items ++ some_found finding) }
{
    let Some(finding) = finding else {
        return Ok(());
    };
    match findings.push(finding) {
        Ok(()) => Ok(()),
        Err(_) => Err(OutOfMemory),
    }
}

/// Adds the tightest bound of each spot of the measure, of those that have any.
fn push_spots(
    plan: &Plan<'_>,
    measure: Measure,
    findings: &mut Vec<Finding>,
) -> Result<(), OutOfMemory>
    requires { IsPlan plan.now }
    ensures { OnOk result (Pushes plan.now.network.now measure findings.old.items findings.new.items) }
{
    'spots: for number in 0..spots_of(plan.network, measure) {
        match push_some(findings, tightest_at(plan, spot_at(measure, number))) {
            Ok(()) => (),
            Err(OutOfMemory) => return Err(OutOfMemory),
        }
    }
    Ok(())
}

/// The tightest of all spots of the measure, and the first where several are as tight.
fn tightest_of(plan: &Plan<'_>, measure: Measure) -> Option<Finding>
    requires { IsPlan plan.now }
    ensures { IsTightestOf plan.now.network.now measure result }
{
    let mut best = None;
    'spots: for number in 0..spots_of(plan.network, measure) {
        best = tighter_of(best, tightest_at(plan, spot_at(measure, number)));
    }
    best
}

/// How many spots the measure looks at.
fn spots_of(network: &Network, measure: Measure) -> u64
    requires { IsInRange network.now }
    ensures { result ≡ spots_of measure network.now }
{
    match measure {
        Measure::Paths => 2 * network.device.as_slice().len() as u64,
        Measure::Windows | Measure::Gaps | Measure::Comings => network.row.as_slice().len() as u64,
        Measure::Settled
        | Measure::Precision
        | Measure::Correction
        | Measure::Begin
        | Measure::End => 1,
    }
}

/// The spot of this number, of those that the measure looks at.
fn spot_at(measure: Measure, number: u64) -> BoundedNumber
    requires within { (network : NetworkValue) × IsInRange network × (number < spots_of measure network) }
    ensures value { result ≡ spot_at measure number }
    ensures of_network { (network : NetworkValue) → number < spots_of measure network → IsSpotOf network result }
{
    match measure {
        Measure::Paths => BoundedNumber::Path(
            DeviceId((number / 2) as u32),
            channel_of(number % 2),
        ),
        Measure::Settled => BoundedNumber::Settled,
        Measure::Precision => BoundedNumber::Precision,
        Measure::Correction => BoundedNumber::Correction,
        Measure::Begin => BoundedNumber::Begin,
        Measure::End => BoundedNumber::End,
        Measure::Windows => BoundedNumber::Window(RowId(number as u32)),
        Measure::Gaps => BoundedNumber::Gap(RowId(number as u32)),
        Measure::Comings => BoundedNumber::Coming(RowId(number as u32)),
    }
}

/// The channel of this number.
fn channel_of(number: u64) -> Channel
    ensures { result ≡ channel_of number }
{
    if number == 0 { Channel::A } else { Channel::B }
}
