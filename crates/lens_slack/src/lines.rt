//! The lines of what was found.
ghost use Rattle.std.specs.Prelude.{◌++◌, ◌+◌, ◌<◌, ◌≡◌, ◌≤◌, length};
ghost use Rattle.net_plan.specs.Ranges.{IsInRange};
ghost use Rattle.lens_slack.specs.Lines.{channel_text, demand_text, finding_line, limit_text, next_text, place_line};
ghost use Rattle.lens_slack.specs.Lines.{place_text, rest_text, row_text, spot_index, spot_rule, spot_text, sum_line};
ghost use Rattle.lens_slack.specs.{Lines.{want_text, where_text}, Writing.{HasPlace, HasSpot, IsNextOf}};

use crate::{Beside, BoundedNumber, Finding};
use net_plan::{DeviceId, LinkId, Network, RowId, VlId};
use schedule_tables::Rule;
use trace_text::way_text;
use tte_io::LineText;
use tte_units::frames::Channel;

fn channel_text(channel: Channel) -> &'static str
    ensures text { result.now ≡ channel_text channel }
    ensures short { length result.now ≤ 1 }
{
    match channel {
        Channel::A => "a",
        Channel::B => "b",
    }
}

/// The rule that bounds the number at the spot.
fn rule_at(spot: BoundedNumber) -> Rule
    ensures { result ≡ spot_rule spot }
{
    match spot {
        BoundedNumber::Path(_, _) => Rule::Delays,
        BoundedNumber::Settled => Rule::Settling,
        BoundedNumber::Precision => Rule::Precision,
        BoundedNumber::Correction => Rule::Correction,
        BoundedNumber::Begin | BoundedNumber::End => Rule::ScheduleStart,
        BoundedNumber::Window(_) => Rule::WindowEnds,
        BoundedNumber::Gap(_) => Rule::Spacing,
        BoundedNumber::Coming(_) => Rule::Forwarding,
    }
}

/// The place at which the rule is judged there.
fn index_at(spot: BoundedNumber) -> u32
    ensures { result ≡ spot_index spot }
{
    match spot {
        BoundedNumber::Path(device, _) => device.0,
        BoundedNumber::Window(row) | BoundedNumber::Gap(row) | BoundedNumber::Coming(row) => row.0,
        BoundedNumber::Settled
        | BoundedNumber::Precision
        | BoundedNumber::Correction
        | BoundedNumber::Begin
        | BoundedNumber::End => 0,
    }
}

/// Adds a row by its virtual link, its link and its way.
fn push_row(line: &mut LineText, network: &Network, row: RowId)
    requires range { IsInRange network.now }
    requires row { row.0 < length network.now.row }
    requires room { length line.old + 38 ≤ 4096 }
    ensures text { line.new ≡ line.old ++ row_text network.now row }
    ensures grows { length line.new ≤ length line.old + 38 }
{
    let row = network.row.as_slice()[row.0 as usize];
    line.append(network.vl_name(row.vl));
    line.push(" ");
    line.append(network.link_name(row.link));
    line.push(" ");
    line.push(way_text(row.way));
}

/// Adds what the spot is called.
fn push_spot(line: &mut LineText, network: &Network, spot: BoundedNumber)
    requires range { IsInRange network.now }
    requires spot { HasSpot network.now spot }
    requires room { length line.old + 38 ≤ 4096 }
    ensures text { line.new ≡ line.old ++ spot_text network.now spot }
    ensures grows { length line.new ≤ length line.old + 38 }
{
    match spot {
        BoundedNumber::Path(device, channel) => {
            line.append(network.device_name(device));
            line.push(" ");
            line.push(channel_text(channel));
        }
        BoundedNumber::Settled => line.push("settled"),
        BoundedNumber::Precision => line.push("precision"),
        BoundedNumber::Correction => line.push("correction"),
        BoundedNumber::Begin => line.push("tt_start"),
        BoundedNumber::End => line.push("tt_start_end"),
        BoundedNumber::Window(row) | BoundedNumber::Gap(row) | BoundedNumber::Coming(row) =>
            push_row(line, network, row),
    }
}

/// Adds which virtual link is next to the row's on its port.
fn push_next(line: &mut LineText, network: &Network, beside: Beside)
    requires range { IsInRange network.now }
    requires next { IsNextOf network.now beside }
    requires room { length line.old + 24 ≤ 4096 }
    ensures text { line.new ≡ line.old ++ next_text network.now beside }
    ensures grows { length line.new ≤ length line.old + 24 }
{
    match beside {
        Beside::Nothing | Beside::Calc => (),
        Beside::Behind(vl) => {
            line.push(" behind ");
            line.append(network.vl_name(vl));
        }
        Beside::Before(vl) => {
            line.push(" before ");
            line.append(network.vl_name(vl));
        }
    }
}

/// Adds the rule and the spot.
#[tactic(auto, unfolding(crate::specs::Lines::where_text))]
fn push_where(line: &mut LineText, network: &Network, finding: &Finding)
    requires range { IsInRange network.now }
    requires spot { HasSpot network.now finding.now.spot }
    requires next { IsNextOf network.now finding.now.beside }
    requires room { length line.old + 120 ≤ 4096 }
    ensures text { line.new ≡ line.old ++ where_text network.now finding.now }
    ensures grows { length line.new ≤ length line.old + 120 }
{
    line.push("rule ");
    line.push_decimal(rule_at(finding.spot).number().into());
    line.push(" at index ");
    line.push_decimal(index_at(finding.spot).into());
    line.push(" ");
    push_spot(line, network, finding.spot);
    push_next(line, network, finding.beside);
}

/// The word before what is wanted.
fn want_text(beside: Beside) -> &'static str
    ensures text { result.now ≡ want_text beside }
    ensures short { length result.now ≤ 5 }
{
    match beside {
        Beside::Calc => "calc ",
        Beside::Nothing | Beside::Behind(_) | Beside::Before(_) => "",
    }
}

/// Adds the room that is left, or what is short.
fn push_rest(line: &mut LineText, finding: &Finding)
    requires { length line.old + 27 ≤ 4096 }
    ensures text { line.new ≡ line.old ++ rest_text finding.now }
    ensures grows { length line.new ≤ length line.old + 27 }
{
    if finding.has < finding.wants {
        line.push(" short ");
        line.push_decimal(finding.wants - finding.has);
    } else {
        line.push(" room ");
        line.push_decimal(finding.has - finding.wants);
    }
}

/// Makes the line of a finding.
#[tactic(auto, unfolding(crate::specs::Lines::finding_line))]
pub fn make_finding_line(line: &mut LineText, network: &Network, finding: &Finding)
    requires range { IsInRange network.now }
    requires spot { HasSpot network.now finding.now.spot }
    requires next { IsNextOf network.now finding.now.beside }
    ensures { line.new ≡ finding_line network.now finding.now }
{
    line.clear();
    push_where(line, network, finding);
    line.push(" has ");
    line.push_decimal(finding.has);
    line.push(" wants ");
    line.push(want_text(finding.beside));
    line.push_decimal(finding.wants);
    push_rest(line, finding);
    line.push("\n");
}

/// Makes the line of how many lines are short.
pub(crate) fn make_sum_line(line: &mut LineText, shorts: u64)
    ensures { line.new ≡ sum_line shorts }
{
    line.clear();
    line.push("short ");
    line.push_decimal(shorts);
    line.push("\n");
}

/// The name of a part of the rule of limits.
fn limit_text(part: u32) -> &'static str
    ensures text { result.now ≡ limit_text part }
    ensures short { length result.now ≤ 15 }
{
    match part {
        0 => "devices",
        1 => "links",
        2 => "vls",
        _ => "rows",
    }
}

/// The name of a part of the rule of masters.
fn demand_text(part: u32) -> &'static str
    ensures text { result.now ≡ demand_text part }
    ensures short { length result.now ≤ 15 }
{
    match part {
        0 => "count",
        1 => "members",
        2 => "threshold",
        3 => "begin_on",
        4 => "starts",
        _ => "one_channel_off",
    }
}

/// Adds what the place of the rule is called.
fn push_place(line: &mut LineText, network: &Network, rule: Rule, place: u32)
    requires range { IsInRange network.now }
    requires place { HasPlace network.now rule place }
    requires room { length line.old + 38 ≤ 4096 }
    ensures text { line.new ≡ line.old ++ place_text network.now rule place }
    ensures grows { length line.new ≤ length line.old + 38 }
{
    match rule {
        Rule::Limits => line.push(limit_text(place)),
        Rule::CompressionMasters => line.push(if place == 0 { "a" } else { "b" }),
        Rule::Masters => line.push(demand_text(place)),
        Rule::DevicesDiffer | Rule::Connections | Rule::Delays | Rule::RowsOfDevice => {
            line.append(network.device_name(DeviceId(place)))
        }
        Rule::LinksDiffer | Rule::Joints => line.append(network.link_name(LinkId(place))),
        Rule::Settling => line.push("settled"),
        Rule::Precision => line.push("precision"),
        Rule::Correction => line.push("correction"),
        Rule::ScheduleStart => line.push("tt_start"),
        Rule::VlNamesDiffer
        | Rule::VlIdsDiffer
        | Rule::Periods
        | Rule::Senders
        | Rule::BothChannels => line.append(network.vl_name(VlId(place))),
        Rule::WindowEnds
        | Rule::LinksOnce
        | Rule::Sources
        | Rule::Targets
        | Rule::Spacing
        | Rule::Forwarding => push_row(line, network, RowId(place)),
    }
}

/// Makes the line of what the index of a broken rule means.
#[tactic(auto, unfolding(crate::specs::Lines::place_line))]
pub(crate) fn make_place_line(line: &mut LineText, network: &Network, rule: Rule, place: u32)
    requires range { IsInRange network.now }
    requires place { HasPlace network.now rule place }
    ensures { line.new ≡ place_line network.now rule place }
{
    line.clear();
    line.push("at index ");
    line.push_decimal(place.into());
    line.push(" ");
    push_place(line, network, rule, place);
    line.push("\n");
}
