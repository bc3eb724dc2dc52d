//! The label of a record's mark.
ghost use Rattle.std.specs.Prelude.{◌≡◌, ◌≤◌, ◌+◌, ◌++◌, length};
ghost use Rattle.lens_svg.specs.Labels.{collection_label, label_text, reason_label, state_label, stream_label};
ghost use Rattle.lens_svg.specs.Labels.{strike_label, verdict_label, way_label};
ghost use Rattle.net_plan.specs.{Belonging.{HasDevice, HasLink, HasVl, IsOfNetwork, device_name}, Ranges.IsInRange};
ghost use Rattle.{report_text.specs.Ranges.IsBodyOf, tte_io.specs.Line.line_limit};

use crate::numbers::push_nanos;
use net_plan::{DeviceId, LinkId, Network, VlId, Way, What};
use report_text::{judgement_text, state_text, why_text};
use run_law::{Judgement, NoteBody, Reason, Why};
use sync_state::State;
use trace_text::way_text;
use tte_io::LineText;
use tte_units::frames::Members;

/// Adds a device's name behind a word.
fn push_named(line: &mut LineText, network: &Network, word: &str, device: DeviceId)
    requires range { IsInRange network.now }
    requires of_network { HasDevice network.now device }
    requires short { length word.now ≤ 8 }
    requires room { length line.old + 24 ≤ line_limit }
    ensures text { line.new ≡ line.old ++ word.now ++ device_name network.now device }
    ensures grows { length line.new ≤ length line.old + 24 }
{
    line.push(word);
    line.append(network.device_name(device));
}

/// Adds a way of a link behind a word.
fn push_way(line: &mut LineText, network: &Network, word: &str, link: LinkId, way: Way)
    requires range { IsInRange network.now }
    requires of_network { HasLink network.now link }
    requires short { length word.now ≤ 8 }
    requires room { length line.old + 30 ≤ line_limit }
    ensures text { line.new ≡ line.old ++ way_label network.now word.now link way }
    ensures grows { length line.new ≤ length line.old + 30 }
{
    line.push(word);
    line.append(network.link_name(link));
    line.push(" ");
    line.push(way_text(way));
}

/// Adds what befalls, and where: at most 30 octets.
fn push_strike(line: &mut LineText, network: &Network, what: &What)
    requires range { IsInRange network.now }
    requires of_network { IsOfNetwork network.now what.now }
    requires room { length line.old + 30 ≤ line_limit }
    ensures text { line.new ≡ line.old ++ strike_label network.now what.now }
    ensures grows { length line.new ≤ length line.old + 30 }
{
    match what {
        What::Rate(device, _) => push_named(line, network, "rate ", *device),
        What::On(device) => push_named(line, network, "on ", *device),
        What::Break(device) => push_named(line, network, "break ", *device),
        What::Wire(link, way, _) => push_way(line, network, "wire ", *link, *way),
        What::Hold(link, way, _) => push_way(line, network, "hold ", *link, *way),
        What::Cut(link, way) => push_way(line, network, "cut ", *link, *way),
        What::Heal(link, way) => push_way(line, network, "heal ", *link, *way),
        What::Send(link, _) => {
            line.push("send ");
            line.append(network.link_name(*link));
        }
        What::End => line.push("end"),
    }
}

/// How a frame is judged, where that is not as it is to be.
fn verdict_label(verdict: Judgement) -> &'static str
    ensures text { result.now ≡ verdict_label verdict }
    ensures short { length result.now ≤ 10 }
{
    match verdict {
        Judgement::Opened | Judgement::Joined | Judgement::Within => "",
        Judgement::Repeat => "repeat",
        Judgement::Outside => "out",
        Judgement::Integrates => "integrates",
        Judgement::Ignored => "ignored",
    }
}

/// Why a frame is dropped, where it is not a second copy.
fn reason_label(reason: Reason) -> &'static str
    ensures text { result.now ≡ reason_label reason }
    ensures short { length result.now ≤ 14 }
{
    match reason {
        Reason::Off => "off",
        Reason::ColdStart => "coldstart",
        Reason::Domain => "domain",
        Reason::Member => "member",
        Reason::Old => "old",
        Reason::Gate => "gate",
        Reason::Cycle => "cycle",
        Reason::Unsynchronised => "unsynchronised",
        Reason::Unknown => "unknown",
        Reason::Length => "length",
        Reason::Early => "early",
        Reason::Late => "late",
        Reason::Repeat => "",
        Reason::RefusedLength(_)
        | Reason::RefusedEtherType
        | Reason::RefusedReserved(_)
        | Reason::RefusedKind(_) => "refused",
    }
}

/// Adds the members of a collection, and how it is judged: at most 19 octets.
fn push_collection(line: &mut LineText, members: Members, verdict: Judgement)
    requires { length line.old + 19 ≤ line_limit }
    ensures text { line.new ≡ line.old ++ collection_label members verdict }
    ensures grows { length line.new ≤ length line.old + 19 }
{
    line.push_hex(&members.0.to_be_bytes());
    line.push(" ");
    line.push(judgement_text(verdict));
}

/// Adds the state from now on, and why: at most 25 octets.
fn push_turn(line: &mut LineText, state: State, why: Why)
    requires { length line.old + 25 ≤ line_limit }
    ensures text { line.new ≡ line.old ++ state_label state why }
    ensures grows { length line.new ≤ length line.old + 25 }
{
    line.push(state_text(state));
    line.push(" ");
    line.push(why_text(why));
}

/// Adds a frame's virtual link and its cycle: at most 37 octets.
fn push_stream(line: &mut LineText, network: &Network, vl: VlId, cycle: u32)
    requires range { IsInRange network.now }
    requires of_network { HasVl network.now vl }
    requires room { length line.old + 37 ≤ line_limit }
    ensures text { line.new ≡ line.old ++ stream_label network.now vl cycle }
    ensures grows { length line.new ≤ length line.old + 37 }
{
    line.append(network.vl_name(vl));
    line.push(" ");
    line.push_decimal(cycle.into());
}

/// Adds the label of a record: at most 37 octets.
pub(crate) fn push_label(line: &mut LineText, network: &Network, body: &NoteBody)
    requires range { IsInRange network.now }
    requires of_network { IsBodyOf network.now body.now }
    requires room { length line.old + 37 ≤ line_limit }
    ensures text { line.new ≡ line.old ++ label_text network.now body.now }
    ensures grows { length line.new ≤ length line.old + 37 }
{
    match body {
        NoteBody::Event { line: _, what } => push_strike(line, network, what),
        NoteBody::Permanent { verdict, .. } => line.push(verdict_label(*verdict)),
        NoteBody::Compressed {
            members,
            verdict,
            ..
        } => push_collection(line, *members, *verdict),
        NoteBody::Corrected { by, .. } => push_nanos(line, *by),
        NoteBody::State { state, why, .. } => push_turn(line, *state, *why),
        NoteBody::Lost { .. } => line.push("lost"),
        NoteBody::TtSent { vl, .. } | NoteBody::Accepted { vl, .. } => {
            line.append(network.vl_name(*vl));
        }
        NoteBody::Delivered { vl, cycle, .. } => push_stream(line, network, *vl, *cycle),
        NoteBody::Dropped { reason, .. } => line.push(reason_label(*reason)),
        NoteBody::Arrived { .. }
        | NoteBody::Sent { .. }
        | NoteBody::Left { .. }
        | NoteBody::Clock { .. } => (),
    }
}
