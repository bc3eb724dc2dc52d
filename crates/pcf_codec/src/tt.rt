ghost use Rattle.std.specs.Prelude.{◌<◌, ◌^◌, length, MatchResult};
ghost use Rattle.pcf_codec.specs.TtSpelling.{SpellsHead, HasTtFault};

use crate::TtRefusal;
use crate::ethertype::{LEAST_TYPE, PCF_TYPE};
use crate::fields::{from, read_mac};
use byteorder::{BigEndian, ByteOrder};
use tte_units::frames::TtHead;

const LEAST_LENGTH: usize = 60;

const MOST_LENGTH: usize = 1514;

/// The head of the time-triggered frame that the octets spell. It is refused exactly where there
/// are not 60 to 1,514 octets, and then exactly where the EtherType is below 06 00 or is 89 1D.
/// There are fewer than 2^32 octets.
pub fn decode_tt(octets: &[u8]) -> Result<TtHead, TtRefusal>
    requires { length octets.now < 2 ^ 32 }
    ensures { MatchResult result (SpellsHead octets.now) (HasTtFault octets.now) }
{
    if octets.len() < LEAST_LENGTH || octets.len() > MOST_LENGTH {
        return Err(TtRefusal::Length(octets.len() as u32));
    }
    let ethertype = BigEndian::read_u16(from(octets, 12));
    if ethertype < LEAST_TYPE || ethertype == PCF_TYPE {
        return Err(TtRefusal::EtherType);
    }
    Ok(TtHead {
        marker: BigEndian::read_u32(octets),
        id: BigEndian::read_u16(from(octets, 4)),
        source: read_mac(octets, 6),
        ethertype,
        length: octets.len() as u16,
    })
}
