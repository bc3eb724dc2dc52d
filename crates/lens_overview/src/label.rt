//! What a row shows, and its words.
ghost use Rattle.std.specs.Prelude.{◌≡◌, ◌≤◌, length};
ghost use Rattle.lens_overview.specs.Labels.{count_word, group_word, height_of, is_kind, is_of_vl, kind_word};
ghost use Rattle.lens_overview.specs.Labels.{label_word, number_of, with_receiver};

use net_plan::{DeviceId, LinkId, VlId, Way};

/// What the rows below a title show.
#[derive(Clone, Copy)]
pub enum Group {
    States,
    Ways,
    Flows,
    Losses,
}

/// What is counted: the events, the frames that were lost, and those that were dropped for one reason.
#[derive(Clone, Copy)]
pub enum Kind {
    Event,
    Lost,
    Off,
    ColdStart,
    Domain,
    Member,
    Old,
    Gate,
    Cycle,
    Unsynchronised,
    Unknown,
    Length,
    Early,
    Late,
    Repeat,
    Refused,
}

/// What a row shows.
#[derive(Clone, Copy)]
pub enum Label {
    /// The title of the rows below it.
    Title(Group),
    /// How many records of a kind there are.
    Count(Kind),
    /// The state of a device.
    Lane(DeviceId),
    /// How many other devices are synchronised, and how many are off.
    Others(u64, u64),
    /// Whether a way of a link is cut.
    Passage(LinkId, Way),
    /// By which channels the frames of a virtual link come to a receiver.
    Flow(VlId, DeviceId),
    /// The same of so many of its receivers.
    Flows(VlId, u64),
}

/// The words of a title.
pub(crate) fn group_word(group: Group) -> &'static str
    ensures text { result.now ≡ group_word group }
    ensures short { length result.now ≤ 9 }
{
    match group {
        Group::States => "states",
        Group::Ways => "cut ways",
        Group::Flows => "delivered",
        Group::Losses => "dropped",
    }
}

/// The word of what is counted.
pub(crate) fn kind_word(kind: Kind) -> &'static str
    ensures text { result.now ≡ kind_word kind }
    ensures short { length result.now ≤ 14 }
{
    match kind {
        Kind::Event => "events",
        Kind::Lost => "lost",
        Kind::Off => "off",
        Kind::ColdStart => "coldstart",
        Kind::Domain => "domain",
        Kind::Member => "member",
        Kind::Old => "old",
        Kind::Gate => "gate",
        Kind::Cycle => "cycle",
        Kind::Unsynchronised => "unsynchronised",
        Kind::Unknown => "unknown",
        Kind::Length => "length",
        Kind::Early => "early",
        Kind::Late => "late",
        Kind::Repeat => "repeat",
        Kind::Refused => "refused",
    }
}

/// The number of what is counted. No two kinds have one.
fn number_of(kind: Kind) -> u64
    ensures { result ≡ number_of kind }
{
    match kind {
        Kind::Event => 0,
        Kind::Lost => 1,
        Kind::Off => 2,
        Kind::ColdStart => 3,
        Kind::Domain => 4,
        Kind::Member => 5,
        Kind::Old => 6,
        Kind::Gate => 7,
        Kind::Cycle => 8,
        Kind::Unsynchronised => 9,
        Kind::Unknown => 10,
        Kind::Length => 11,
        Kind::Early => 12,
        Kind::Late => 13,
        Kind::Repeat => 14,
        Kind::Refused => 15,
    }
}

/// Are they one kind?
pub(crate) fn is_kind(kind: Kind, other: Option<Kind>) -> bool
    ensures { result ≡ is_kind kind other }
{
    match other {
        Some(other) => number_of(other) == number_of(kind),
        None => false,
    }
}

/// The word of what a count is of: its colour. A second copy is not wanted, and a device that is off or not synchronised
/// takes no frame; else a frame is lost or refused.
fn count_word(kind: Kind) -> &'static str
    ensures text { result.now ≡ count_word kind }
    ensures short { length result.now ≤ 7 }
{
    match kind {
        Kind::Event => "event",
        Kind::Off | Kind::Unsynchronised | Kind::Repeat => "spared",
        Kind::Lost
        | Kind::ColdStart
        | Kind::Domain
        | Kind::Member
        | Kind::Old
        | Kind::Gate
        | Kind::Cycle
        | Kind::Unknown
        | Kind::Length
        | Kind::Early
        | Kind::Late
        | Kind::Refused => "refused",
    }
}

/// The word of what a row shows: its colours.
pub(crate) fn label_word(label: Label) -> &'static str
    ensures text { result.now ≡ label_word label }
    ensures short { length result.now ≤ 7 }
{
    match label {
        Label::Title(_) => "title",
        Label::Count(kind) => count_word(kind),
        Label::Lane(_) => "lane",
        Label::Others(_, _) => "lane",
        Label::Passage(_, _) => "passage",
        Label::Flow(_, _) => "flow",
        Label::Flows(_, _) => "flow",
    }
}

/// How far a row is below the one above it, in pixels.
pub(crate) fn height_of(label: Label) -> u64
    ensures value { result ≡ height_of label }
    ensures most { result ≤ 18 }
{
    match label {
        Label::Title(_) => 18,
        Label::Count(_) => 12,
        Label::Lane(_) => 12,
        Label::Others(_, _) => 12,
        Label::Passage(_, _) => 8,
        Label::Flow(_, _) => 11,
        Label::Flows(_, _) => 11,
    }
}

/// The row of frames with one receiver more.
pub(crate) fn with_receiver(label: Label) -> Label
    ensures { result ≡ with_receiver label }
{
    match label {
        Label::Flow(vl, _) => Label::Flows(vl, 2),
        Label::Flows(vl, count) => Label::Flows(vl, count.saturating_add(1)),
        Label::Title(_)
        | Label::Count(_)
        | Label::Lane(_)
        | Label::Others(_, _)
        | Label::Passage(_, _) => label,
    }
}

/// Is the row one of the frames of the virtual link?
pub(crate) fn is_of_vl(label: Label, vl: VlId) -> bool
    ensures { result ≡ is_of_vl label vl }
{
    match label {
        Label::Flow(other, _) => other.0 == vl.0,
        Label::Flows(other, _) => other.0 == vl.0,
        Label::Title(_)
        | Label::Count(_)
        | Label::Lane(_)
        | Label::Others(_, _)
        | Label::Passage(_, _) => false,
    }
}
