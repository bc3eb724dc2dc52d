ghost use Rattle.std.specs.Prelude.{◌+◌, ◌<◌, ◌^◌, ◌≡◌, ◌≤◌, Ok, length, slice_index, ℕ};
ghost use Rattle.pcf_codec.specs.{Decoding.{decoded, kind_read, zeros_read}, Encoded.encoded};
ghost use Rattle.pcf_codec.specs.Spelling.{IsPadding, Spells, code_of};

use crate::PcfRefusal;
use crate::ethertype::PCF_TYPE;
use crate::fields::{from, read_mac};
use byteorder::{BigEndian, ByteOrder};
use tte_units::frames::{Members, Pcf, PcfKind};

/// How many octets a protocol control frame has, without its check sequence.
pub const PCF_LENGTH: usize = 60;

/// The frame that the octets spell, or the fault that stands first: a wrong length, and then the
/// fault of the least offset. There are fewer than 2^32 octets.
///
/// `spelling_law` says what `decoded` is: it is the layout of SAE AS6802, read both ways.
#[tactic(auto, unfolding(crate::specs::Decoding::decoded, crate::specs::Decoding::fields_read))]
pub fn decode(octets: &[u8]) -> Result<Pcf, PcfRefusal>
    requires { length octets.now < 2 ^ 32 }
    ensures { result ≡ decoded octets.now }
{
    if octets.len() != PCF_LENGTH {
        return Err(PcfRefusal::Length(octets.len() as u32));
    }
    if BigEndian::read_u16(from(octets, 12)) != PCF_TYPE {
        return Err(PcfRefusal::EtherType);
    }
    read_zeros(octets, 22, 4)?;
    let kind = read_kind(octets[28])?;
    read_zeros(octets, 29, 5)?;
    Ok(Pcf {
        destination: read_mac(octets, 0),
        source: read_mac(octets, 6),
        cycle: BigEndian::read_u32(from(octets, 14)),
        members: Members(BigEndian::read_u32(from(octets, 18))),
        priority: octets[26],
        domain: octets[27],
        kind,
        clock: BigEndian::read_u64(from(octets, 34)),
    })
}

// Checks that `count` octets from an offset on are zero.
fn read_zeros(octets: &[u8], at: u8, count: u8) -> Result<(), PcfRefusal>
    requires room { at + count ≤ length octets.now }
    requires small { length octets.now < 100 }
    ensures { result ≡ zeros_read at count octets.now }
{
    for i in at..at + count {
        if octets[i as usize] != 0 {
            return Err(PcfRefusal::Reserved(i));
        }
    }
    Ok(())
}

fn read_kind(octet: u8) -> Result<PcfKind, PcfRefusal>
    ensures { result ≡ kind_read octet }
{
    match octet {
        2 => Ok(PcfKind::Integration),
        4 => Ok(PcfKind::ColdStart),
        8 => Ok(PcfKind::ColdStartAck),
        _ => Err(PcfRefusal::Kind(octet)),
    }
}

fn kind_code(kind: PcfKind) -> u8
    ensures { result ≡ code_of kind }
{
    match kind {
        PcfKind::Integration => 2,
        PcfKind::ColdStart => 4,
        PcfKind::ColdStartAck => 8,
    }
}

/// Writes the octets that spell the frame, with zeros in the reserved octets and in the padding.
pub fn encode(frame: &Pcf, octets: &mut [u8; PCF_LENGTH])
    ensures exact { octets.new ≡ encoded frame.now }
    ensures spelling { Spells octets.new frame.now }
    ensures padding { (i : ℕ) → IsPadding i → slice_index octets.new i ≡ 0 }
    ensures round_trip { decoded octets.new ≡ Ok frame.now }
{
    let Pcf {
        cycle,
        members: Members(members),
        clock,
        ..
    } = *frame;
    *octets = [0; PCF_LENGTH];
    BigEndian::write_u48(octets, frame.destination.number());
    BigEndian::write_u48(&mut octets[6..], frame.source.number());
    BigEndian::write_u16(&mut octets[12..], PCF_TYPE);
    BigEndian::write_u32(&mut octets[14..], cycle);
    BigEndian::write_u32(&mut octets[18..], members);
    octets[26] = frame.priority;
    octets[27] = frame.domain;
    octets[28] = kind_code(frame.kind);
    BigEndian::write_u64(&mut octets[34..], clock);
}
