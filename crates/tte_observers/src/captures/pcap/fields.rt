ghost use Rattle.std.specs.Prelude.{◌≡◌, ◌≤◌, ◌+◌, length};
ghost use Rattle.tte_observers.specs.captures.pcap.Layout.{number};

use byteorder::{BigEndian, ByteOrder, LittleEndian};

/// The number that two octets from an offset on spell, in this byte order.
#[tactic(auto, unfolding(crate::specs::captures::pcap::Layout::number))]
pub(crate) fn read_half(big: bool, octets: &[u8], at: usize) -> u16
    requires { at + 2 ≤ length octets.now }
    ensures { result ≡ number big 2 at octets.now }
{
    let (_, behind) = octets.split_at(at);
    if big {
        BigEndian::read_u16(behind)
    } else {
        LittleEndian::read_u16(behind)
    }
}

/// The number that four octets from an offset on spell, in this byte order.
#[tactic(auto, unfolding(crate::specs::captures::pcap::Layout::number))]
pub(crate) fn read_word(big: bool, octets: &[u8], at: usize) -> u32
    requires { at + 4 ≤ length octets.now }
    ensures { result ≡ number big 4 at octets.now }
{
    let (_, behind) = octets.split_at(at);
    if big {
        BigEndian::read_u32(behind)
    } else {
        LittleEndian::read_u32(behind)
    }
}
