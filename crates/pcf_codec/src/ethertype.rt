ghost use Rattle.std.specs.Prelude.{◌↔◌, ◌<◌, ◌^◌, length, IsTrue};
ghost use Rattle.pcf_codec.specs.EtherType.{HasPcfType};

use crate::fields::from;
use byteorder::{BigEndian, ByteOrder};

/// The EtherType of a protocol control frame (SAE AS6802).
pub const PCF_TYPE: u16 = 0x891d;

/// The least EtherType; a smaller number in its place is a length (IEEE 802.3).
pub const LEAST_TYPE: u16 = 0x0600;

/// Whether octets count as a protocol control frame: there are at least 14, and octets 12 and 13
/// are 89 1D. Whether they spell one is for `decode` to say.
pub fn is_pcf(octets: &[u8]) -> bool
    requires { length octets.now < 2 ^ 32 }
    ensures { IsTrue result ↔ HasPcfType octets.now }
{
    octets.len() >= 14 && BigEndian::read_u16(from(octets, 12)) == PCF_TYPE
}
