ghost use Rattle.std.specs.Io.KnownBytes.{Appends};
ghost use Rattle.std.specs.Prelude.{◌++◌, ◌+◌, ◌≡◌, ◌≤◌, MatchResult, OnErr, OnOk, length, take};
ghost use Rattle.tte_io.specs.{Faults.{Rose, next_count}, Told.AppendsFront};
ghost use Rattle.tte_observers.specs.captures.pcap.Layout.{most_written};
ghost use Rattle.tte_observers.specs.captures.pcap.Writing.{head_octets, packet_octets, stamp_octets};

use byteorder::{ByteOrder, LittleEndian};
use tte_io::{Sink, SinkFailed};

/// The header of a capture, the least octet first: the magic, version 2.4, a zone and a count of
/// significant figures that are 0, the greatest captured length and the link type.
const HEAD: [u8; 24] = [
    0xd4, 0xc3, 0xb2, 0xa1, 2, 0, 4, 0, 0, 0, 0, 0, 0, 0, 0, 0, 0, 0, 4, 0, 1, 0, 0, 0,
];

/// How many octets a packet takes at most with its stamp and its lengths.
const ROOM: usize = 1530;

/// Writes the header of a capture, in one put.
pub fn put_head<K: Sink>(out: &mut K) -> Result<(), SinkFailed>
    ensures all { OnOk result (Appends (K.written out.old) (K.written out.new) head_octets) }
    ensures front { OnErr result (AppendsFront (K.written out.old) (K.written out.new) head_octets) }
    ensures counted { K.puts out.new ≡ next_count (K.puts out.old) }

    ensures never_falls { K.faults out.old ≤ K.faults out.new }
    ensures faults { MatchResult result (λ _. K.faults out.new ≡ K.faults out.old)
        (λ _. Rose (K.faults out.old) (K.faults out.new)) }
{
    out.put(&HEAD)
}

/// Writes a packet with its stamp, in one put. It has at most 1,514 octets, and all are captured.
pub fn put_packet<K: Sink>(
    seconds: u32,
    micros: u32,
    octets: &[u8],
    out: &mut K,
) -> Result<(), SinkFailed>
    requires { length octets.now ≤ most_written }

    ensures all { OnOk result
        (Appends (K.written out.old) (K.written out.new) (packet_octets seconds micros octets.now)) }
    ensures front { OnErr result
        (AppendsFront (K.written out.old) (K.written out.new) (packet_octets seconds micros octets.now)) }
    ensures counted { K.puts out.new ≡ next_count (K.puts out.old) }

    ensures never_falls { K.faults out.old ≤ K.faults out.new }
    ensures faults { MatchResult result (λ _. K.faults out.new ≡ K.faults out.old)
        (λ _. Rose (K.faults out.old) (K.faults out.new)) }
{
    let mut packet = [0; ROOM];
    let length = write_packet(seconds, micros, octets, &mut packet);
    out.put(&packet[..length])
}

/// Writes a packet with its stamp to the front of a room, and answers how many octets it takes.
fn write_packet(seconds: u32, micros: u32, octets: &[u8], room: &mut [u8]) -> usize
    requires short { length octets.now ≤ most_written }
    requires fits { 16 + length octets.now ≤ length room.old }
    ensures size { result ≡ 16 + length octets.now }
    ensures front { take (16 + length octets.now) room.new ≡ packet_octets seconds micros octets.now }
{
    let end = 16 + octets.len();
    let stamp = make_stamp(seconds, micros, octets.len() as u32);
    room[..16].copy_from_slice(&stamp);
    room[16..end].copy_from_slice(octets);
    end
}

/// What stands before the octets of a packet: its stamp, and its length as captured and before.
fn make_stamp(seconds: u32, micros: u32, length: u32) -> [u8; 16]
    ensures { result ≡ stamp_octets seconds micros length }
{
    let mut stamp = [0; 16];
    LittleEndian::write_u32(&mut stamp, seconds);
    LittleEndian::write_u32(&mut stamp[4..], micros);
    LittleEndian::write_u32(&mut stamp[8..], length);
    LittleEndian::write_u32(&mut stamp[12..], length);
    stamp
}
