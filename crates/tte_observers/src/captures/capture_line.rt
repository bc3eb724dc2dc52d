ghost use Rattle.std.specs.Prelude.{◌++◌, ◌+◌, ◌<◌, ◌^◌, ◌≡◌, ◌≤◌, Err, length};
ghost use Rattle.pcf_codec.specs.Decoding.{decoded};
ghost use Rattle.tte_observers.specs.captures.CaptureLine.{captured_octets, head_refusal_line, no_frame_words};
ghost use Rattle.tte_observers.specs.captures.CaptureLine.{octets_words, packet_line, packet_refusal_line, reason_text};

use crate::captures::pcap::{CaptureRefusal, Packet};
use pcf_codec::{PcfRefusal, decode, is_pcf};
use tte_forms::{push_frame, push_refusal};
use tte_io::LineText;

/// The octets of a packet that were captured.
#[tactic(auto, using(std::proofs::lemmas::List::take_min))]
fn captured(file: &[u8], packet: Packet) -> &[u8]
    requires order { packet.from ≤ packet.to }
    requires within { packet.to ≤ length file.now }
    ensures octets { result.now ≡ captured_octets file.now packet }
    ensures size { length result.now + packet.from ≡ packet.to }
{
    let (front, _) = file.split_at(packet.to as usize);
    let (_, octets) = front.split_at(packet.from as usize);
    octets
}

/// Adds the words of octets that spell no control frame, for this reason.
fn push_no_frame(line: &mut LineText, octets: &[u8], refusal: PcfRefusal)
    requires room { length line.old + 38 ≤ 4096 }
    requires small { length octets.now < 2 ^ 32 }
    ensures text { line.new ≡ line.old ++ no_frame_words octets.now refusal }
    ensures grows { length line.new ≤ length line.old + 38 }
{
    if is_pcf(octets) {
        line.push("refused ");
        push_refusal(line, refusal);
    } else {
        line.push("other ");
        line.push_decimal(octets.len() as u64);
    }
}

/// Adds the words of octets: what they spell, why they spell nothing, or how many they are.
fn push_octets(line: &mut LineText, octets: &[u8])
    requires room { length line.old + 165 ≤ 4096 }
    requires small { length octets.now < 2 ^ 32 }
    ensures text { line.new ≡ line.old ++ octets_words octets.now }
    ensures grows { length line.new ≤ length line.old + 165 }
{
    match decode(octets) {
        Ok(frame) => push_frame(line, &frame),
        Err(refusal) => push_no_frame(line, octets, refusal),
    }
}

/// Makes the line of a packet.
#[tactic(auto, unfolding(crate::specs::captures::CaptureLine::packet_line))]
pub(crate) fn make_packet_line(line: &mut LineText, number: u64, file: &[u8], packet: Packet)
    requires small { length file.now < 2 ^ 32 }
    requires order { packet.from ≤ packet.to }
    requires within { packet.to ≤ length file.now }
    ensures { line.new ≡ packet_line number file.now packet }
{
    line.clear();
    line.push("packet ");
    line.push_decimal(number);
    line.push(" time ");
    line.push_decimal(packet.seconds.into());
    line.push(" ");
    line.push_decimal(packet.micros.into());
    line.push(" ");
    push_octets(line, captured(file, packet));
    line.push("\n");
}

/// Adds why a header or a packet is refused.
fn push_reason(line: &mut LineText, refusal: CaptureRefusal)
    requires { length line.old + 30 ≤ 4096 }
    ensures text { line.new ≡ line.old ++ reason_text refusal }
    ensures grows { length line.new ≤ length line.old + 30 }
{
    match refusal {
        CaptureRefusal::Header(n) => {
            line.push("header ");
            line.push_decimal(n.into());
        }
        CaptureRefusal::Magic => line.push("magic"),
        CaptureRefusal::Version => line.push("version"),
        CaptureRefusal::LinkType => line.push("linktype"),
        CaptureRefusal::PacketLength(n) => {
            line.push("length ");
            line.push_decimal(n.into());
        }
        CaptureRefusal::Cut => line.push("cut"),
    }
}

/// Makes the line of a header that is refused.
#[tactic(auto, unfolding(crate::specs::captures::CaptureLine::head_refusal_line))]
pub(crate) fn make_head_refusal_line(line: &mut LineText, refusal: CaptureRefusal)
    ensures { line.new ≡ head_refusal_line refusal }
{
    line.clear();
    line.push("refused capture ");
    push_reason(line, refusal);
    line.push("\n");
}

/// Makes the line of a packet that is refused.
#[tactic(auto, unfolding(crate::specs::captures::CaptureLine::packet_refusal_line))]
pub(crate) fn make_packet_refusal_line(line: &mut LineText, number: u64, refusal: CaptureRefusal)
    ensures { line.new ≡ packet_refusal_line number refusal }
{
    line.clear();
    line.push("refused capture packet ");
    line.push_decimal(number);
    line.push(" ");
    push_reason(line, refusal);
    line.push("\n");
}
