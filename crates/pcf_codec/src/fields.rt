ghost use Rattle.std.specs.Prelude.{◌≡◌, ◌≤◌, ◌+◌, length, drop};
ghost use Rattle.pcf_codec.specs.Fields.{field};

use byteorder::{BigEndian, ByteOrder};
use tte_units::frames::Mac;

/// The octets from an offset on.
pub fn from(octets: &[u8], at: usize) -> &[u8]
    requires { at ≤ length octets.now }
    ensures { result.now ≡ drop at octets.now }
{
    octets.split_at(at).1
}

/// The address that six octets from an offset on spell.
pub fn read_mac(octets: &[u8], at: usize) -> Mac
    requires { at + 6 ≤ length octets.now }
    ensures { result ≡ field at 6 octets.now }
{
    Mac::from_number(BigEndian::read_u48(from(octets, at)))
}

/// The number in two octets from an offset on.
pub fn two_octets(octets: &[u8], at: usize) -> u16
    requires { at + 2 ≤ length octets.now }
    ensures { result ≡ field at 2 octets.now }
{
    BigEndian::read_u16(from(octets, at))
}

/// The number in the first four octets.
pub fn four_octets(octets: &[u8]) -> u32
    requires { 4 ≤ length octets.now }
    ensures { result ≡ field 0 4 octets.now }
{
    BigEndian::read_u32(octets)
}
