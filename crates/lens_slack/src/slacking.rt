ghost use Rattle.std.specs.Prelude.{◌≡◌, ◌≢◌, All, List};
ghost use Rattle.lens_slack.specs.declared.spot.Finding.{Finding as FindingValue};
ghost use Rattle.lens_slack.specs.Answer.{IsFileAnswer, IsSlackAnswer, IsSlackAnswerOf, IsSlackOf, broken_answer};
ghost use Rattle.lens_slack.specs.{Answer.{ending_answer, ending_status, found_answer, told_of}, Finds.shorts_of, Lines.finding_line};
ghost use Rattle.lens_slack.specs.{Writing.{HasEndingPlace, HasPlace, IsWritable}, Inequalities.IsInequality};
ghost use Rattle.{net_plan.specs.Ranges.IsInRange, tte_forms.specs.Faults.{HasCause, IsWanted, PutFailed, ReadFailed}};
ghost use Rattle.tte_forms.specs.{Answering.{AnswersOne, Gives, GivesAnswer}, Putting.Over, Taking.TakesUpTo};
ghost use Rattle.tte_forms.specs.networks.{Checking.IsCheckStatus, NetworkLine.{network_refusal_line, rule_reason}};
ghost use Rattle.tte_forms.specs.frames.Answer.{file_limit};

use crate::Finding;
use crate::lines::{make_finding_line, make_place_line, make_sum_line};
use crate::measuring::{Ending, Slack, slack_of};
use crate::step::{ALL, Step, steps_of};
use net_plan::Network;
use schedule_checker::RuleBroken;
use schedule_tables::Rule;
use std::alloc::Global;
use tte_forms::{
    LineMaker, Status, make_rule_line, put_each, put_last, put_no_network, read_unjudged,
};
use tte_io::{LineText, Sink, Source};

/// Tells of the network of a file, for each rule that is an inequality, what it has at its tightest place, what the
/// rule wants there, and the room that is left or what is short.
///
/// `slack_law` says that both are the sides of the rule, and that short is what `check` refuses.
pub fn slack_of_network<A: Source, K: Sink>(alloc: Global, source: &mut A, out: &mut K) -> Status
    ensures general { Over K.Sink out.old out.new (AnswersOne IsSlackAnswer (A.left source.old) result) }
    ensures statuses { IsCheckStatus result }
    // Where the source failed, nothing was written.
    ensures faults { HasCause result (ReadFailed A.Source source.old source.new × (out.new ≡ out.old))
        (PutFailed K.Sink out.old out.new) }
    ensures taken { TakesUpTo file_limit (A.left source.old) (A.left source.new) }
{
    slack_by(alloc, source, &ALL, out)
}

/// The same for each place of one rule that is an inequality.
pub fn slack_of_rule<A: Source, K: Sink>(
    alloc: Global,
    source: &mut A,
    rule: Rule,
    out: &mut K,
) -> Status
    requires { IsInequality rule }
    ensures general { Over K.Sink out.old out.new (AnswersOne (IsSlackAnswerOf rule) (A.left source.old) result) }
    ensures statuses { IsCheckStatus result }
    ensures faults { HasCause result (ReadFailed A.Source source.old source.new × (out.new ≡ out.old))
        (PutFailed K.Sink out.old out.new) }
    ensures taken { TakesUpTo file_limit (A.left source.old) (A.left source.new) }
{
    slack_by(alloc, source, steps_of(rule), out)
}

/// Tells what is found by these steps.
fn slack_by<A: Source, K: Sink>(
    alloc: Global,
    source: &mut A,
    steps: &[Step],
    out: &mut K,
) -> Status
    ensures general { Over K.Sink out.old out.new
        (AnswersOne (IsFileAnswer (IsSlackOf steps.now)) (A.left source.old) result) }
    ensures statuses { IsCheckStatus result }
    ensures faults { HasCause result (ReadFailed A.Source source.old source.new × (out.new ≡ out.old))
        (PutFailed K.Sink out.old out.new) }
    ensures taken { TakesUpTo file_limit (A.left source.old) (A.left source.new) }
{
    match read_unjudged(alloc, source) {
        Ok(network) => put_slack_of(alloc, &network, steps, out),
        Err(cause) => put_no_network(cause, out),
    }
}

/// Tells what is found of a network by these steps.
fn put_slack_of<K: Sink>(alloc: Global, network: &Network, steps: &[Step], out: &mut K) -> Status
    requires { IsInRange network.now }
    ensures gives { Over K.Sink out.old out.new (GivesAnswer (IsSlackOf steps.now network.now) result) }
    ensures statuses { IsCheckStatus result }
    ensures write { result ≡ Status.WriteFault → PutFailed K.Sink out.old out.new }
    ensures read { result ≢ Status.ReadFault }
{
    match slack_of(alloc, network, steps) {
        Ok(slack) => put_slack(network, &slack, out),
        Err(_) => Status::OutOfMemory,
    }
}

/// The lines of findings.
#[derive(Drop)]
struct FindingLines<'a> {
    network: &'a Network,
}

impl LineMaker<Finding> for FindingLines<'_> {
    ghost fit = { λ lines. IsInRange lines.network.now };

    ghost takes = { λ lines finding. IsWritable lines.network.now finding };

    ghost text = { λ lines finding. finding_line lines.network.now finding };

    fn make(&self, line: &mut LineText, thing: &Finding) {
        make_finding_line(line, self.network, thing);
    }
}

/// Puts the lines of what was found, and passes them on.
fn put_slack<K: Sink>(network: &Network, slack: &Slack, out: &mut K) -> Status
    requires range { IsInRange network.now }
    requires writable { All (IsWritable network.now) slack.now.findings.items }
    requires place { HasEndingPlace network.now slack.now.ending }
    ensures gives { Over K.Sink out.old out.new
        (Gives (found_answer network.now slack.now.findings.items slack.now.ending) result) }
    ensures status { IsWanted (ending_status slack.now.findings.items slack.now.ending) result
        (PutFailed K.Sink out.old out.new) }
{
    let findings = slack.findings.as_slice();
    let shorts = shorts_of(findings);
    match put_each(&FindingLines { network }, findings, out) {
        Ok(()) => (),
        Err(_) => return Status::WriteFault,
    }
    let mut line = LineText::new();
    put_ending(network, slack.ending, shorts, &mut line, out)
}

/// Puts the last lines, and passes all on.
fn put_ending<K: Sink>(
    network: &Network,
    ending: Ending,
    shorts: u64,
    line: &mut LineText,
    out: &mut K,
) -> Status
    requires range { IsInRange network.now }
    requires place { HasEndingPlace network.now ending }
    ensures gives { (findings : List FindingValue) → shorts ≡ shorts_of findings
        → Over K.Sink out.old out.new (Gives (ending_answer network.now findings ending) result) }
    ensures status { (findings : List FindingValue) → shorts ≡ shorts_of findings
        → IsWanted (ending_status findings ending) result (PutFailed K.Sink out.old out.new) }
{
    match ending {
        Ending::Whole => {
            make_sum_line(line, shorts);
            put_last(line.as_slice(), sum_status(shorts), out)
        }
        Ending::Broken(rule, place) => put_broken(network, rule, place, out),
    }
}

/// Writes the line of `check` for the rule, first broken at the place, and what its index means, and passes all on.
pub fn put_broken<K: Sink>(network: &Network, rule: Rule, place: u32, out: &mut K) -> Status
    requires range { IsInRange network.now }
    requires place { HasPlace network.now rule place }
    ensures gives { Over K.Sink out.old out.new (Gives (broken_answer network.now rule place) result) }
    ensures status { IsWanted Status.NetworkRefused result (PutFailed K.Sink out.old out.new) }
{
    let mut line = LineText::new();
    make_broken_line(&mut line, rule, place);
    match out.put(line.as_slice()) {
        Ok(()) => (),
        Err(_) => return Status::WriteFault,
    }
    make_place_line(&mut line, network, rule, place);
    put_last(line.as_slice(), Status::NetworkRefused, out)
}

/// The status where so many lines are short.
fn sum_status(shorts: u64) -> Status
    ensures { (findings : List FindingValue) → shorts ≡ shorts_of findings
        → result ≡ ending_status findings Ending.Whole }
{
    if shorts == 0 {
        Status::Done
    } else {
        Status::NetworkRefused
    }
}

/// Makes the line that `check` has for the rule, first broken at the place.
fn make_broken_line(line: &mut LineText, rule: Rule, place: u32)
    ensures { line.new ≡ network_refusal_line (rule_reason (told_of rule place)) }
{
    make_rule_line(
        line,
        RuleBroken {
            number: rule.number(),
            index: place,
        },
    );
}

/// How many of the findings are short.
fn shorts_of(findings: &[Finding]) -> u64
    ensures { result ≡ shorts_of findings.now }
{
    let mut shorts = 0;
    'findings: for finding in findings {
        if finding.has < finding.wants {
            shorts += 1;
        }
    }
    shorts
}
