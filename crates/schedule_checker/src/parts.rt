//! The two parts of the rules: those of a network's shape, and those behind them.
ghost use Rattle.std.specs.Prelude.{◌≡◌};
ghost use Rattle.schedule_checker.specs.Judging.{plan_rule, shape_rule};

use schedule_tables::Rule;

/// A rule of the network's shape: one of those on devices and links, which beta and the paths suppose.
#[derive(Clone, Copy)]
pub(crate) enum ShapeRule {
    Limits,
    DevicesDiffer,
    LinksDiffer,
    CompressionMasters,
    Joints,
    Connections,
    Masters,
}

impl ShapeRule {
    /// They all, in the order in which they are judged.
    pub(crate) const ALL: [ShapeRule; 7] = [
        ShapeRule::Limits,
        ShapeRule::DevicesDiffer,
        ShapeRule::LinksDiffer,
        ShapeRule::CompressionMasters,
        ShapeRule::Joints,
        ShapeRule::Connections,
        ShapeRule::Masters,
    ];

    /// The rule that it is.
    pub(crate) fn rule(self) -> Rule
        ensures { result ≡ shape_rule self }
    {
        match self {
            ShapeRule::Limits => Rule::Limits,
            ShapeRule::DevicesDiffer => Rule::DevicesDiffer,
            ShapeRule::LinksDiffer => Rule::LinksDiffer,
            ShapeRule::CompressionMasters => Rule::CompressionMasters,
            ShapeRule::Joints => Rule::Joints,
            ShapeRule::Connections => Rule::Connections,
            ShapeRule::Masters => Rule::Masters,
        }
    }
}

/// A rule behind those of the shape.
#[derive(Clone, Copy)]
pub enum PlanRule {
    Delays,
    Settling,
    Precision,
    Correction,
    ScheduleStart,
    WindowEnds,
    VlNamesDiffer,
    VlIdsDiffer,
    Periods,
    Senders,
    LinksOnce,
    Sources,
    Targets,
    Spacing,
    BothChannels,
    Forwarding,
    RowsOfDevice,
}

impl PlanRule {
    /// They all, in the order in which they are judged.
    pub(crate) const ALL: [PlanRule; 17] = [
        PlanRule::Delays,
        PlanRule::Settling,
        PlanRule::Precision,
        PlanRule::Correction,
        PlanRule::ScheduleStart,
        PlanRule::WindowEnds,
        PlanRule::VlNamesDiffer,
        PlanRule::VlIdsDiffer,
        PlanRule::Periods,
        PlanRule::Senders,
        PlanRule::LinksOnce,
        PlanRule::Sources,
        PlanRule::Targets,
        PlanRule::Spacing,
        PlanRule::BothChannels,
        PlanRule::Forwarding,
        PlanRule::RowsOfDevice,
    ];

    /// The rule that it is.
    pub fn rule(self) -> Rule
        ensures { result ≡ plan_rule self }
    {
        match self {
            PlanRule::Delays => Rule::Delays,
            PlanRule::Settling => Rule::Settling,
            PlanRule::Precision => Rule::Precision,
            PlanRule::Correction => Rule::Correction,
            PlanRule::ScheduleStart => Rule::ScheduleStart,
            PlanRule::WindowEnds => Rule::WindowEnds,
            PlanRule::VlNamesDiffer => Rule::VlNamesDiffer,
            PlanRule::VlIdsDiffer => Rule::VlIdsDiffer,
            PlanRule::Periods => Rule::Periods,
            PlanRule::Senders => Rule::Senders,
            PlanRule::LinksOnce => Rule::LinksOnce,
            PlanRule::Sources => Rule::Sources,
            PlanRule::Targets => Rule::Targets,
            PlanRule::Spacing => Rule::Spacing,
            PlanRule::BothChannels => Rule::BothChannels,
            PlanRule::Forwarding => Rule::Forwarding,
            PlanRule::RowsOfDevice => Rule::RowsOfDevice,
        }
    }
}
