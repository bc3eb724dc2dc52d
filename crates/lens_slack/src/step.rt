//! The order in which the rules behind those of the shape are looked at.
ghost use Rattle.std.specs.Prelude.{◌≡◌};
ghost use Rattle.lens_slack.specs.Steps.{rule_steps};

use crate::Measure;
use schedule_checker::PlanRule;
use schedule_tables::Rule;

/// What is done next.
#[derive(Clone, Copy)]
pub(crate) enum Step {
    /// A rule that is no inequality is judged. Where it is broken, that is told, and nothing behind it.
    Judged(PlanRule),
    /// The tightest of all spots of the measure is told.
    Measured(Measure),
    /// Each spot of the measure is told.
    Listed(Measure),
}

/// The inequalities that suppose the trees alone, the rules of virtual links and their rows, and those that suppose
/// these.
pub(crate) const ALL: [Step; 18] = [
    Step::Measured(Measure::Paths),
    Step::Measured(Measure::Settled),
    Step::Measured(Measure::Precision),
    Step::Measured(Measure::Correction),
    Step::Measured(Measure::Begin),
    Step::Measured(Measure::End),
    Step::Judged(PlanRule::VlNamesDiffer),
    Step::Judged(PlanRule::VlIdsDiffer),
    Step::Judged(PlanRule::Periods),
    Step::Judged(PlanRule::Senders),
    Step::Judged(PlanRule::LinksOnce),
    Step::Judged(PlanRule::Sources),
    Step::Judged(PlanRule::Targets),
    Step::Measured(Measure::Windows),
    Step::Measured(Measure::Gaps),
    Step::Measured(Measure::Comings),
    Step::Judged(PlanRule::BothChannels),
    Step::Judged(PlanRule::RowsOfDevice),
];

/// Each window, behind the rules that windows suppose.
const WINDOWS: [Step; 8] = [
    Step::Judged(PlanRule::VlNamesDiffer),
    Step::Judged(PlanRule::VlIdsDiffer),
    Step::Judged(PlanRule::Periods),
    Step::Judged(PlanRule::Senders),
    Step::Judged(PlanRule::LinksOnce),
    Step::Judged(PlanRule::Sources),
    Step::Judged(PlanRule::Targets),
    Step::Listed(Measure::Windows),
];

/// Each gap between rows, behind the rules that gaps suppose.
const GAPS: [Step; 8] = [
    Step::Judged(PlanRule::VlNamesDiffer),
    Step::Judged(PlanRule::VlIdsDiffer),
    Step::Judged(PlanRule::Periods),
    Step::Judged(PlanRule::Senders),
    Step::Judged(PlanRule::LinksOnce),
    Step::Judged(PlanRule::Sources),
    Step::Judged(PlanRule::Targets),
    Step::Listed(Measure::Gaps),
];

/// Each offset of a row, behind the rules that offsets suppose.
const COMINGS: [Step; 8] = [
    Step::Judged(PlanRule::VlNamesDiffer),
    Step::Judged(PlanRule::VlIdsDiffer),
    Step::Judged(PlanRule::Periods),
    Step::Judged(PlanRule::Senders),
    Step::Judged(PlanRule::LinksOnce),
    Step::Judged(PlanRule::Sources),
    Step::Judged(PlanRule::Targets),
    Step::Listed(Measure::Comings),
];

/// The steps for each place of one rule, which are none where it is no inequality.
pub(crate) fn steps_of(rule: Rule) -> &'static [Step]
    ensures { result.now ≡ rule_steps rule }
{
    match rule {
        Rule::Delays => &[Step::Listed(Measure::Paths)],
        Rule::Settling => &[Step::Listed(Measure::Settled)],
        Rule::Precision => &[Step::Listed(Measure::Precision)],
        Rule::Correction => &[Step::Listed(Measure::Correction)],
        Rule::ScheduleStart => &[Step::Listed(Measure::Begin), Step::Listed(Measure::End)],
        Rule::WindowEnds => &WINDOWS,
        Rule::Spacing => &GAPS,
        Rule::Forwarding => &COMINGS,
        Rule::Limits
        | Rule::DevicesDiffer
        | Rule::LinksDiffer
        | Rule::CompressionMasters
        | Rule::Joints
        | Rule::Connections
        | Rule::Masters
        | Rule::VlNamesDiffer
        | Rule::VlIdsDiffer
        | Rule::Periods
        | Rule::Senders
        | Rule::LinksOnce
        | Rule::Sources
        | Rule::Targets
        | Rule::BothChannels
        | Rule::RowsOfDevice => &[],
    }
}
