ghost use Rattle.std.specs.{List.{AllPass, list_all}, Prelude.{◌<◌, ◌^◌, ◌≡◌, ◌≢◌, ◌≤◌, IfSome, IsTrue, length}};
ghost use Rattle.{byteorder.specs.Endian.big_number, net_plan.specs.NameText.{IsNameText, is_name_character}};
ghost use Rattle.net_file.specs.Values.{channel_of, ethertype_of, hex_number, is_name_text, name_of, number_within};
ghost use Rattle.net_file.specs.Values.{role_of, speed_of, way_of};

use byteorder::{BigEndian, ByteOrder};
use net_plan::{Name, Role, Way};
use tte_units::frames::{Channel, Mac};
use tte_units::{Speed, Units};

/// The EtherType of protocol control frames (SAE AS6802).
const PCF_TYPE: u64 = 0x891d;

/// The longest time of a network file, in units of 2^-16 ns.
pub(crate) const LONGEST: u64 = 1 << 40;

/// The number, if it lies from `low` to `high`.
pub(crate) fn number_within(low: u64, high: u64, number: i64) -> Option<u64>
    ensures value { result ≡ number_within low high number }
    ensures least { IfSome result (λ n. low ≤ n) }
    ensures most { IfSome result (λ n. n ≤ high) }
{
    if number < 0 {
        return None;
    }
    let number = number as u64;
    if low <= number && number <= high {
        Some(number)
    } else {
        None
    }
}

fn mac_spelled(octets: &[u8]) -> Mac
    requires { 6 ≤ length octets.now }
    ensures { result ≡ big_number 6 octets.now }
{
    Mac::from_number(BigEndian::read_u48(octets))
}

/// The address of a text of 12 hexadecimal digits.
pub(crate) fn mac_of(text: &str) -> Option<Mac>
    ensures { result ≡ hex_number 6 text.now }
{
    let mut octets = [0; 6];
    match hex::decode_to_slice(text, &mut octets) {
        Ok(()) => Some(mac_spelled(&octets)),
        Err(_) => None,
    }
}

/// The marker of a text of 8 hexadecimal digits.
pub(crate) fn marker_of(text: &str) -> Option<u32>
    ensures { result ≡ hex_number 4 text.now }
{
    let mut octets = [0; 4];
    match hex::decode_to_slice(text, &mut octets) {
        Ok(()) => Some(BigEndian::read_u32(&octets)),
        Err(_) => None,
    }
}

pub(crate) fn role_of(text: &str) -> Option<Role>
    ensures { result ≡ role_of text.now }
{
    match text {
        "master" => Some(Role::Master),
        "client" => Some(Role::Client),
        "cm" => Some(Role::Cm),
        "relay" => Some(Role::Relay),
        _ => None,
    }
}

pub(crate) fn channel_of(text: &str) -> Option<Channel>
    ensures { result ≡ channel_of text.now }
{
    match text {
        "a" => Some(Channel::A),
        "b" => Some(Channel::B),
        _ => None,
    }
}

pub(crate) fn way_of(text: &str) -> Option<Way>
    ensures { result ≡ way_of text.now }
{
    match text {
        "up" => Some(Way::Up),
        "down" => Some(Way::Down),
        _ => None,
    }
}

/// The link's speed of so many Mbit/s.
pub(crate) fn speed_of(n: i64) -> Option<Speed>
    ensures { result ≡ speed_of n }
{
    match n {
        100 => Some(Speed::Mbit100),
        1000 => Some(Speed::Gbit1),
        _ => None,
    }
}

/// An EtherType of time-triggered frames.
pub(crate) fn ethertype_of(n: i64) -> Option<u16>
    ensures value { result ≡ ethertype_of n }
    ensures least { IfSome result (λ e. 1536 ≤ e) }
    ensures other { IfSome result (λ e. e ≢ 35101) }
{
    let ethertype = number_within(1536, 65535, n)?;
    if ethertype == PCF_TYPE {
        None
    } else {
        Some(ethertype as u16)
    }
}

fn is_name_character(character: u8) -> bool
    ensures { result ≡ is_name_character character }
{
    character.is_ascii_lowercase() || character.is_ascii_digit() || character == b'_'
}

fn has_name_characters(text: &[u8]) -> bool
    ensures value { result ≡ list_all is_name_character text.now }
    ensures meaning { IsTrue result → AllPass is_name_character text.now }
{
    text.iter().all(|character| is_name_character(*character))
}

fn is_name_text(text: &str) -> bool
    ensures value { result ≡ is_name_text text.now }
    ensures meaning { IsTrue result → IsNameText text.now }
{
    1 <= text.len() && text.len() <= 16 && has_name_characters(text.as_bytes())
}

/// The name of a text of 1 to 16 characters, each a lower-case ASCII letter, a digit or `_`.
pub(crate) fn name_of(text: &str) -> Option<Name>
    ensures value { result ≡ name_of text.now }
    ensures meaning { IfSome result IsNameText }
{
    if is_name_text(text) {
        Some(Name::new(text))
    } else {
        None
    }
}
