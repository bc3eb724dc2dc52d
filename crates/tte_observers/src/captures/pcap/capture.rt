ghost use Rattle.std.specs.Prelude.{◌<◌, ◌^◌, ◌≡◌, ◌≤◌, IfOk, IfSome, length};
ghost use Rattle.tte_observers.specs.captures.pcap.{Layout.IsPacket, Reading.{judged, opened, packet_at}};

use crate::captures::pcap::CaptureRefusal;
use crate::captures::pcap::fields::{read_half, read_word};

/// How many octets the header of a capture has.
const HEAD_LENGTH: usize = 24;

/// The number at the front of a capture, in its byte order.
const MAGIC: u32 = 0xa1b2_c3d4;

/// How many octets stand before those of a packet.
const STAMP_LENGTH: usize = 16;

/// How many octets of a packet are captured at most.
const MOST_CAPTURED: u32 = 262_144;

/// What the header of a capture tells: the order of the octets of each number.
#[derive(Clone, Copy, PartialEq, Eq)]
pub struct CaptureHead {
    /// Whether the greatest octet comes first.
    pub big: bool,
}

/// A packet of a capture.
#[derive(Clone, Copy, PartialEq, Eq)]
pub struct Packet {
    /// The whole seconds of its stamp.
    pub seconds: u32,
    /// The microseconds of its stamp.
    pub micros: u32,
    /// The place of its first octet.
    pub from: u32,
    /// The place behind its last octet, where the next packet begins.
    pub to: u32,
    /// How many octets it had before it was captured.
    pub original: u32,
}

/// Judges the header of a capture. It is refused exactly where there are fewer than 24 octets, and
/// then exactly where the magic stands in neither byte order, the version is not 2.4, or the link
/// type is not Ethernet, in this order.
///
/// `reading_law` says what `opened` is.
#[tactic(auto, unfolding(crate::specs::captures::pcap::Reading::opened))]
pub fn open_capture(file: &[u8]) -> Result<CaptureHead, CaptureRefusal>
    ensures { result ≡ opened file.now }
{
    if file.len() < HEAD_LENGTH {
        return Err(CaptureRefusal::Header(file.len() as u32));
    }
    if read_word(true, file, 0) == MAGIC {
        return judge(true, file);
    }
    if read_word(false, file, 0) == MAGIC {
        return judge(false, file);
    }
    Err(CaptureRefusal::Magic)
}

/// Judges the version and the link type of a header, whose byte order is known.
#[tactic(auto, unfolding(crate::specs::captures::pcap::Reading::judged))]
fn judge(big: bool, file: &[u8]) -> Result<CaptureHead, CaptureRefusal>
    requires { 24 ≤ length file.now }
    ensures { result ≡ judged big file.now }
{
    if read_half(big, file, 4) != 2 || read_half(big, file, 6) != 4 {
        return Err(CaptureRefusal::Version);
    }
    if read_word(big, file, 20) % 65_536 != 1 {
        return Err(CaptureRefusal::LinkType);
    }
    Ok(CaptureHead { big })
}

/// The packet that begins at a place in a capture, or None exactly where the capture ends there. It
/// is refused exactly where its captured length exceeds 262,144, and then exactly where the capture
/// ends within it. The capture has fewer than 2^32 octets.
///
/// `reading_law` says what `packet_at` is.
#[tactic(auto, unfolding(crate::specs::captures::pcap::Reading::packet_at))]
pub fn next_packet(
    head: CaptureHead,
    file: &[u8],
    at: u32,
) -> Result<Option<Packet>, CaptureRefusal>
    requires small { length file.now < 2 ^ 32 }
    requires within { at ≤ length file.now }
    ensures exact { result ≡ packet_at head file.now at }
    ensures stands { IfOk result (λ found. IfSome found (IsPacket head file.now at)) }
{
    let place = at as usize;
    let left = file.len() - place;
    if left == 0 {
        return Ok(None);
    }
    if left < STAMP_LENGTH {
        return Err(CaptureRefusal::Cut);
    }
    let captured = read_word(head.big, file, place + 8);
    if captured > MOST_CAPTURED {
        return Err(CaptureRefusal::PacketLength(captured));
    }
    if left - STAMP_LENGTH < captured as usize {
        return Err(CaptureRefusal::Cut);
    }
    let from = at + 16;
    Ok(Some(Packet {
        seconds: read_word(head.big, file, place),
        micros: read_word(head.big, file, place + 4),
        from,
        to: from + captured,
        original: read_word(head.big, file, place + 12),
    }))
}
