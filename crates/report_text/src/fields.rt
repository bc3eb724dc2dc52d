ghost use Rattle.std.specs.{Fmt.signed_decimal, List.join_with_byte};
ghost use Rattle.std.specs.Prelude.{◌++◌, ◌+◌, ◌∷◌, ◌≡◌, ◌≤◌, [], codes, length};
ghost use Rattle.net_plan.specs.Belonging.{HasDevice, HasLink, HasVl, device_name, link_name, vl_name};
ghost use Rattle.{net_plan.specs.Ranges.IsInRange, trace_text.specs.Steps.space, tte_io.specs.Line.line_limit};
ghost use Rattle.report_text.specs.{NoteLine.{passage_words, stream_words}, NoteWords.members_text};

use net_plan::{DeviceId, LinkId, Name, Network, VlId};
use tte_io::LineText;
use tte_units::Units;
use tte_units::frames::Members;

// Adds a number of units, which takes at most 21 octets.
pub(crate) fn push_units(line: &mut LineText, units: Units)
    requires { length line.old + 21 ≤ line_limit }
    ensures text { line.new ≡ line.old ++ signed_decimal units.0 }
    ensures grows { length line.new ≤ length line.old + 21 }
{
    if units.0 < 0 {
        line.push("-");
    }
    line.push_decimal(units.0.unsigned_abs());
}

// Adds the eight digits of a set of masters.
pub(crate) fn push_members(line: &mut LineText, members: Members)
    requires { length line.old + 8 ≤ line_limit }
    ensures text { line.new ≡ line.old ++ members_text members }
    ensures grows { length line.new ≡ length line.old + 8 }
{
    line.push_hex(&members.0.to_be_bytes());
}

// The name of a device of the network.
#[inline(always)]
fn device_name(network: &Network, device: DeviceId) -> &Name
    requires { HasDevice network.now device }
    ensures { result.now ≡ device_name network.now device }
{
    &network.device.as_slice()[device.0 as usize].name
}

// The name of a link of the network.
#[inline(always)]
fn link_name(network: &Network, link: LinkId) -> &Name
    requires { HasLink network.now link }
    ensures { result.now ≡ link_name network.now link }
{
    &network.link.as_slice()[link.0 as usize].name
}

// The name of a virtual link of the network.
#[inline(always)]
fn vl_name(network: &Network, vl: VlId) -> &Name
    requires { HasVl network.now vl }
    ensures { result.now ≡ vl_name network.now vl }
{
    &network.vl.as_slice()[vl.0 as usize].name
}

// Adds a name, which takes at most 16 octets.
#[inline(always)]
fn push_name(line: &mut LineText, name: &Name)
    requires { length line.old + 16 ≤ line_limit }
    ensures text { line.new ≡ line.old ++ name.now }
    ensures grows { length line.new ≤ length line.old + 16 }
{
    line.append_padded(name.padded(), name.count());
}

// Adds the word of a record's kind, and the device: at most 17 octets behind the word.
pub(crate) fn push_device(line: &mut LineText, network: &Network, kind: &str, device: DeviceId)
    requires in_range { IsInRange network.now }
    requires of_network { HasDevice network.now device }
    requires room { length line.old + length kind.now + 17 ≤ line_limit }
    ensures text { line.new ≡ line.old ++ join_with_byte space (kind.now ∷ device_name network.now device ∷ []) }
    ensures grows { length line.new ≤ length line.old + length kind.now + 17 }
{
    line.push(kind);
    line.push(" ");
    push_name(line, device_name(network, device));
}

// Adds the word of a record's kind, the device, the link and the cause: at most 55 octets behind the word.
pub(crate) fn push_passage(
    line: &mut LineText,
    network: &Network,
    kind: &str,
    device: DeviceId,
    link: LinkId,
    cause: u64,
)
    requires in_range { IsInRange network.now }
    requires device_of_network { HasDevice network.now device }
    requires link_of_network { HasLink network.now link }
    requires room { length line.old + length kind.now + 55 ≤ line_limit }
    ensures text { line.new ≡ line.old ++ join_with_byte space (kind.now
        ∷ passage_words network.now device link cause) }
    ensures grows { length line.new ≤ length line.old + length kind.now + 55 }
{
    push_device(line, network, kind, device);
    line.push(" ");
    push_name(line, link_name(network, link));
    line.push(" ");
    line.push_decimal(cause);
}

// Adds the virtual link of a time-triggered frame and the cycle, behind a space: at most 47 octets.
pub(crate) fn push_stream(line: &mut LineText, network: &Network, vl: VlId, cycle: u32)
    requires in_range { IsInRange network.now }
    requires of_network { HasVl network.now vl }
    requires room { length line.old + 47 ≤ line_limit }
    ensures text { line.new ≡ line.old ++ space ∷ join_with_byte space (stream_words network.now vl cycle) }
    ensures grows { length line.new ≤ length line.old + 47 }
{
    line.push(" vl ");
    push_name(line, vl_name(network, vl));
    line.push(" cycle ");
    line.push_decimal(cycle.into());
}
