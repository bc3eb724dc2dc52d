ghost use Rattle.std.specs.{Fmt.signed_decimal, List.join_with_byte};
ghost use Rattle.std.specs.Prelude.{◌++◌, ◌+◌, ◌∷◌, ◌≡◌, ◌≤◌, [], codes, decimal, length};
ghost use Rattle.net_plan.specs.{Belonging.{HasDevice, HasLink, HasVl, IsOfNetwork, device_name}, Ranges.IsInRange};
ghost use Rattle.report_text.specs.NoteLine.{body_text, body_words, longest_body, passage_words, stream_words};
ghost use Rattle.{report_text.specs.NoteWords.{judgement_text, members_text}, run_law.specs.plain.Bodies.body_of};
ghost use Rattle.{report_text.specs.Ranges.IsBodyOf, trace_text.specs.Steps.space, tte_io.specs.Line.line_limit};
ghost use Rattle.run_law.specs.declared.note.NoteBody.TheVariants as bodies;

use crate::fields::{push_device, push_members, push_passage, push_stream, push_units};
use crate::words::{judgement_text, push_reason, state_text, why_text};
use net_plan::{DeviceId, LinkId, Network, VlId, What};
use run_law::plain::{EventOrPlain, PlainKind};
use run_law::{Judgement, NoteBody, Reason, Why};
use sync_state::State;
use trace_text::push_what;
use tte_io::LineText;
use tte_units::Units;
use tte_units::frames::Members;

// Adds what the record of an event says.
pub(crate) fn push_event(line: &mut LineText, network: &Network, of_trace: u64, what: &What)
    requires in_range { IsInRange network.now }
    requires of_network { IsOfNetwork network.now what.now }
    requires room { length line.old + longest_body ≤ line_limit }
    ensures text { line.new ≡ line.old
        ++ join_with_byte space (body_words network.now (bodies.Event of_trace what.now)) }
    ensures grows { length line.new ≤ length line.old + longest_body }
{
    line.push("event ");
    line.push_decimal(of_trace);
    line.push(" ");
    push_what(line, network, what);
}

// Adds what the record of a collection begins with: the device, its opening point, and when it is sent.
fn push_collection(
    line: &mut LineText,
    network: &Network,
    device: DeviceId,
    opened: Units,
    at: Units,
)
    requires in_range { IsInRange network.now }
    requires of_network { HasDevice network.now device }
    requires room { length line.old + 81 ≤ line_limit }
    ensures text { line.new ≡ line.old ++ join_with_byte space
        (codes "compressed" ∷ device_name network.now device ∷ codes "opened" ∷ signed_decimal opened.0 ∷ codes "at"
        ∷ signed_decimal at.0 ∷ []) }
    ensures grows { length line.new ≤ length line.old + 81 }
{
    push_device(line, network, "compressed", device);
    line.push(" opened ");
    push_units(line, opened);
    line.push(" at ");
    push_units(line, at);
}

// Adds what it ends with, behind a space: the frame's cycle and members, and how the device heard it.
fn push_summary(line: &mut LineText, cycle: u32, members: Members, verdict: Judgement)
    requires { length line.old + 55 ≤ line_limit }
    ensures text { line.new ≡ line.old ++ space ∷ join_with_byte space
        (codes "cycle" ∷ decimal cycle ∷ codes "members" ∷ members_text members ∷ judgement_text verdict ∷ []) }
    ensures grows { length line.new ≤ length line.old + 55 }
{
    line.push(" cycle ");
    line.push_decimal(cycle.into());
    line.push(" members ");
    push_members(line, members);
    line.push(" ");
    line.push(judgement_text(verdict));
}

fn push_sent(line: &mut LineText, network: &Network, device: DeviceId, cycle: u32)
    requires in_range { IsInRange network.now }
    requires of_network { HasDevice network.now device }
    requires room { length line.old + 48 ≤ line_limit }
    ensures text { line.new ≡ line.old ++ join_with_byte space (body_words network.now (bodies.Sent device cycle)) }
    ensures grows { length line.new ≤ length line.old + 48 }
{
    push_device(line, network, "sent", device);
    line.push(" cycle ");
    line.push_decimal(cycle.into());
}

fn push_corrected(
    line: &mut LineText,
    network: &Network,
    device: DeviceId,
    cycle: u32,
    by: Units,
    adjustment: Units,
)
    requires in_range { IsInRange network.now }
    requires of_network { HasDevice network.now device }
    requires room { length line.old + 104 ≤ line_limit }
    ensures text { line.new ≡ line.old
        ++ join_with_byte space (body_words network.now (bodies.Corrected device cycle by adjustment)) }
    ensures grows { length line.new ≤ length line.old + 104 }
{
    push_device(line, network, "corrected", device);
    line.push(" cycle ");
    line.push_decimal(cycle.into());
    line.push(" by ");
    push_units(line, by);
    line.push(" adj ");
    push_units(line, adjustment);
}

fn push_state(
    line: &mut LineText,
    network: &Network,
    device: DeviceId,
    state: State,
    cause: u64,
    why: Why,
)
    requires in_range { IsInRange network.now }
    requires of_network { HasDevice network.now device }
    requires room { length line.old + 69 ≤ line_limit }
    ensures text { line.new ≡ line.old
        ++ join_with_byte space (body_words network.now (bodies.State device state cause why)) }
    ensures grows { length line.new ≤ length line.old + 69 }
{
    push_device(line, network, "state", device);
    line.push(" ");
    line.push(state_text(state));
    line.push(" ");
    line.push_decimal(cause);
    line.push(" ");
    line.push(why_text(why));
}

fn push_clock(
    line: &mut LineText,
    network: &Network,
    device: DeviceId,
    reading: Units,
    adjustment: Units,
    state: State,
)
    requires in_range { IsInRange network.now }
    requires of_network { HasDevice network.now device }
    requires room { length line.old + 97 ≤ line_limit }
    ensures text { line.new ≡ line.old
        ++ join_with_byte space (body_words network.now (bodies.Clock device reading adjustment state)) }
    ensures grows { length line.new ≤ length line.old + 97 }
{
    push_device(line, network, "clock", device);
    line.push(" reading ");
    push_units(line, reading);
    line.push(" adj ");
    push_units(line, adjustment);
    line.push(" state ");
    line.push(state_text(state));
}

// Adds what the record of a control frame says that arrives or leaves, of this kind, with its clock.
fn push_clocked(
    line: &mut LineText,
    network: &Network,
    kind: &str,
    device: DeviceId,
    link: LinkId,
    cause: u64,
    clock: u64,
)
    requires in_range { IsInRange network.now }
    requires device_of_network { HasDevice network.now device }
    requires link_of_network { HasLink network.now link }
    requires room { length line.old + length kind.now + 82 ≤ line_limit }
    ensures text { line.new ≡ line.old ++ join_with_byte space
        (kind.now ∷ (passage_words network.now device link cause ++ codes "clock" ∷ decimal clock ∷ [])) }
    ensures grows { length line.new ≤ length line.old + length kind.now + 82 }
{
    push_passage(line, network, kind, device, link, cause);
    line.push(" clock ");
    line.push_decimal(clock);
}

fn push_permanent(
    line: &mut LineText,
    network: &Network,
    device: DeviceId,
    link: LinkId,
    cause: u64,
    point: Units,
    verdict: Judgement,
)
    requires in_range { IsInRange network.now }
    requires device_of_network { HasDevice network.now device }
    requires link_of_network { HasLink network.now link }
    requires room { length line.old + 103 ≤ line_limit }
    ensures text { line.new ≡ line.old ++ join_with_byte space
        (body_words network.now (bodies.Permanent device link cause point verdict)) }
    ensures grows { length line.new ≤ length line.old + 103 }
{
    push_passage(line, network, "permanent", device, link, cause);
    line.push(" point ");
    push_units(line, point);
    line.push(" ");
    line.push(judgement_text(verdict));
}

// Adds what the record of a time-triggered frame says, of this kind.
fn push_tt(
    line: &mut LineText,
    network: &Network,
    kind: &str,
    device: DeviceId,
    link: LinkId,
    cause: u64,
    vl: VlId,
    cycle: u32,
)
    requires in_range { IsInRange network.now }
    requires device_of_network { HasDevice network.now device }
    requires link_of_network { HasLink network.now link }
    requires vl_of_network { HasVl network.now vl }
    requires room { length line.old + length kind.now + 102 ≤ line_limit }
    ensures text { line.new ≡ line.old ++ join_with_byte space
        (kind.now ∷ (passage_words network.now device link cause ++ stream_words network.now vl cycle)) }
    ensures grows { length line.new ≤ length line.old + length kind.now + 102 }
{
    push_passage(line, network, kind, device, link, cause);
    push_stream(line, network, vl, cycle);
}

fn push_dropped(
    line: &mut LineText,
    network: &Network,
    device: DeviceId,
    link: LinkId,
    cause: u64,
    reason: Reason,
)
    requires in_range { IsInRange network.now }
    requires device_of_network { HasDevice network.now device }
    requires link_of_network { HasLink network.now link }
    requires room { length line.old + longest_body ≤ line_limit }
    ensures text { line.new ≡ line.old ++ join_with_byte space
        (body_words network.now (bodies.Dropped device link cause reason)) }
    ensures grows { length line.new ≤ length line.old + longest_body }
{
    push_passage(line, network, "dropped", device, link, cause);
    line.push(" ");
    push_reason(line, reason);
}

// Adds what a record says that is of no event.
#[tactic(auto, unfolding(crate::specs::NoteLine::body_text))]
pub(crate) fn push_plain(line: &mut LineText, network: &Network, kind: &PlainKind)
    requires in_range { IsInRange network.now }
    requires of_network { IsBodyOf network.now (body_of kind.now) }
    requires room { length line.old + longest_body ≤ line_limit }
    ensures text { line.new ≡ line.old ++ body_text network.now (body_of kind.now) }
    ensures grows { length line.new ≤ length line.old + longest_body }
{
    match *kind {
        PlainKind::Compressed {
            device,
            opened,
            at,
            cycle,
            members,
            verdict,
        } => {
            push_collection(line, network, device, opened, at);
            push_summary(line, cycle, members, verdict);
        }
        PlainKind::Sent { device, cycle } => push_sent(line, network, device, cycle),
        PlainKind::Corrected {
            device,
            cycle,
            by,
            adjustment,
        } => push_corrected(line, network, device, cycle, by, adjustment),
        PlainKind::State {
            device,
            state,
            cause,
            why,
        } => push_state(line, network, device, state, cause, why),
        PlainKind::Clock {
            device,
            reading,
            adjustment,
            state,
        } => push_clock(line, network, device, reading, adjustment, state),
        PlainKind::Arrived {
            device,
            link,
            cause,
            clock,
        } => push_clocked(line, network, "arrived", device, link, cause, clock),
        PlainKind::Permanent {
            device,
            link,
            cause,
            point,
            verdict,
        } => push_permanent(line, network, device, link, cause, point, verdict),
        PlainKind::Left {
            device,
            link,
            cause,
            clock,
        } => push_clocked(line, network, "left", device, link, cause, clock),
        PlainKind::Lost {
            device,
            link,
            cause,
        } => push_passage(line, network, "lost", device, link, cause),
        PlainKind::TtSent {
            device,
            link,
            cause,
            vl,
            cycle,
        } => push_tt(line, network, "ttsent", device, link, cause, vl, cycle),
        PlainKind::Accepted {
            device,
            link,
            cause,
            vl,
            cycle,
        } => push_tt(line, network, "accepted", device, link, cause, vl, cycle),
        PlainKind::Delivered {
            device,
            link,
            cause,
            vl,
            cycle,
        } => push_tt(line, network, "delivered", device, link, cause, vl, cycle),
        PlainKind::Dropped {
            device,
            link,
            cause,
            reason,
        } => push_dropped(line, network, device, link, cause, reason),
    }
}

// Adds what a record says, which takes at most 3,077 octets.
#[tactic(auto, unfolding(crate::specs::NoteLine::body_text))]
pub(crate) fn push_body(line: &mut LineText, network: &Network, body: &NoteBody)
    requires in_range { IsInRange network.now }
    requires of_network { IsBodyOf network.now body.now }
    requires room { length line.old + longest_body ≤ line_limit }
    ensures text { line.new ≡ line.old ++ body_text network.now body.now }
    ensures grows { length line.new ≤ length line.old + longest_body }
{
    match EventOrPlain::of(body) {
        EventOrPlain::Event {
            line: of_trace,
            what,
        } => push_event(line, network, of_trace, what),
        EventOrPlain::Plain(kind) => push_plain(line, network, &kind),
    }
}
