ghost use Rattle.std.specs.Prelude.{◌++◌, ◌+◌, ◌≡◌, ◌≤◌, length};
ghost use Rattle.tte_forms.specs.frames.FrameLine.{frame_line, frame_words, hex_text, kind_text, refusal_line};
ghost use Rattle.tte_forms.specs.frames.FrameLine.{refusal_text};

use byteorder::{BigEndian, ByteOrder};
use pcf_codec::PcfRefusal;
use tte_io::LineText;
use tte_units::frames::{Mac, Members, Pcf, PcfKind};

fn kind_word(kind: PcfKind) -> &'static str
    ensures text { result.now ≡ kind_text kind }
    ensures short { length result.now ≡ 2 }
{
    match kind {
        PcfKind::Integration => "IN",
        PcfKind::ColdStart => "CS",
        PcfKind::ColdStartAck => "CA",
    }
}

fn push_mac(line: &mut LineText, mac: Mac)
    requires { length line.old + 12 ≤ 4096 }
    ensures text { line.new ≡ line.old ++ hex_text 6 mac }
    ensures grows { length line.new ≡ length line.old + 12 }
{
    let mut octets = [0; 6];
    BigEndian::write_u48(&mut octets, mac.number());
    line.push_hex(&octets);
}

fn push_members(line: &mut LineText, members: Members)
    requires { length line.old + 8 ≤ 4096 }
    ensures text { line.new ≡ line.old ++ hex_text 4 members.0 }
    ensures grows { length line.new ≡ length line.old + 8 }
{
    let mut octets = [0; 4];
    BigEndian::write_u32(&mut octets, members.0);
    line.push_hex(&octets);
}

/// Adds the words of a frame, from its type on, which take at most 165 octets.
#[tactic(auto, unfolding(crate::specs::frames::FrameLine::frame_words))]
pub fn push_frame(line: &mut LineText, frame: &Pcf)
    requires { length line.old + 165 ≤ 4096 }
    ensures text { line.new ≡ line.old ++ frame_words frame.now }
    ensures grows { length line.new ≤ length line.old + 165 }
{
    line.push(kind_word(frame.kind));
    line.push(" cycle ");
    line.push_decimal(frame.cycle.into());
    line.push(" members ");
    push_members(line, frame.members);
    line.push(" priority ");
    line.push_decimal(frame.priority.into());
    line.push(" domain ");
    line.push_decimal(frame.domain.into());
    line.push(" clock ");
    line.push_decimal(frame.clock);
    line.push(" to ");
    push_mac(line, frame.destination);
    line.push(" from ");
    push_mac(line, frame.source);
}

/// Makes the line of a frame.
#[tactic(auto, unfolding(crate::specs::frames::FrameLine::frame_line))]
pub fn make_frame_line(line: &mut LineText, number: u64, frame: &Pcf)
    ensures { line.new ≡ frame_line number frame.now }
{
    line.clear();
    line.push("frame ");
    line.push_decimal(number);
    line.push(" ");
    push_frame(line, frame);
    line.push("\n");
}

/// Adds why a frame is refused, which takes at most 30 octets.
pub fn push_refusal(line: &mut LineText, refusal: PcfRefusal)
    requires { length line.old + 30 ≤ 4096 }
    ensures text { line.new ≡ line.old ++ refusal_text refusal }
    ensures grows { length line.new ≤ length line.old + 30 }
{
    match refusal {
        PcfRefusal::Length(n) => {
            line.push("length ");
            line.push_decimal(n.into());
        }
        PcfRefusal::EtherType => line.push("ethertype"),
        PcfRefusal::Reserved(offset) => {
            line.push("reserved ");
            line.push_decimal(offset.into());
        }
        PcfRefusal::Kind(octet) => {
            line.push("type ");
            line.push_hex(&[octet]);
        }
    }
}

/// Makes the line of a frame that is refused.
#[tactic(auto, unfolding(crate::specs::frames::FrameLine::refusal_line))]
pub fn make_refusal_line(line: &mut LineText, number: u64, refusal: PcfRefusal)
    ensures { line.new ≡ refusal_line number refusal }
{
    line.clear();
    line.push("refused frame ");
    line.push_decimal(number);
    line.push(" ");
    push_refusal(line, refusal);
    line.push("\n");
}
