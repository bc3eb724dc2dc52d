//! Tests of what is written to a capture where packets are long or empty, and where a put fails.

ghost use Rattle.std.specs.Prelude.{◌≤◌, length};
ghost use Rattle.tte_observers.specs.captures.pcap.Layout.{most_written};

use crate::frames::joined;
use std::process::Abort;
use std::test::Fail;
use tte_io::{MemorySink, SinkFailed};
use tte_observers::captures::pcap::{put_head, put_packet};
use worked_network::SENT;

// What Python's struct packs with '<IIII' of (0x01020304, 0x05060708, 1514, 1514).
const LONGEST: [u8; 16] = [
    0x04, 0x03, 0x02, 0x01, 0x08, 0x07, 0x06, 0x05, 0xea, 0x05, 0x00, 0x00, 0xea, 0x05, 0x00, 0x00,
];

/// The header is put, and answered so.
fn heads(rt: &impl Abort, sink: &mut MemorySink, wanted: Result<(), SinkFailed>) {
    assert!(rt; put_head(sink) == wanted);
}

/// A packet with this stamp is put, and answered so.
fn packs(
    rt: &impl Abort,
    sink: &mut MemorySink,
    seconds: u32,
    micros: u32,
    octets: &[u8],
    wanted: Result<(), SinkFailed>,
)
    requires { length octets.now ≤ most_written }
{
    assert!(rt; put_packet(seconds, micros, octets, sink) == wanted);
}

#[test]
fn a_packet_has_at_most_1514_octets(rt: HostRuntime) -> Result<(), Fail> {
    let alloc = rt.alloc();
    let octets = [0xa5; 1514];
    let mut sink = MemorySink::new(alloc, 1546, &[])?;
    packs(&rt, &mut sink, 0x0102_0304, 0x0506_0708, &octets, Ok(()));
    packs(&rt, &mut sink, 0, 0, &[], Ok(()));
    let wanted = joined(alloc, &[&LONGEST, &octets, &[0; 16]])?;
    assert!(rt; sink.written() == wanted.as_slice());
    Ok(())
}

#[test]
fn a_put_that_fails_is_answered(rt: HostRuntime) -> Result<(), Fail> {
    let mut sink = MemorySink::new(rt.alloc(), 200, &[1, 3])?;
    heads(&rt, &mut sink, Err(SinkFailed));
    heads(&rt, &mut sink, Ok(()));
    packs(&rt, &mut sink, 0, 2000, &SENT, Err(SinkFailed));
    packs(&rt, &mut sink, 0, 2000, &SENT, Ok(()));
    assert!(rt; sink.written().len() == 100);
    Ok(())
}
