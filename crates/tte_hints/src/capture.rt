use crate::hinting::Called;
use crate::saying::Hole::Text;
use crate::saying::filled;
use std::alloc::Global;
use tte_io::{Source, read_all};

/// How many octets a capture has at most.
pub(crate) const CAPTURE_LIMIT: u64 = 16_777_216;

/// The octets that a pcapng file begins with.
const PCAPNG: &[u8] = &[0x0a, 0x0d, 0x0d, 0x0a];

/// The octets that a pcap file with nanoseconds begins with, by its order of octets.
const NANOSECONDS_LEAST_FIRST: &[u8] = &[0x4d, 0x3c, 0xb2, 0xa1];

const NANOSECONDS_GREATEST_FIRST: &[u8] = &[0xa1, 0xb2, 0x3c, 0x4d];

/// Of which other format of captures octets are, if of one that is known here.
fn other_format(octets: &[u8]) -> Option<&'static str> {
    if octets.starts_with(PCAPNG) {
        Some("pcapng")
    } else if octets.starts_with(NANOSECONDS_LEAST_FIRST)
        || octets.starts_with(NANOSECONDS_GREATEST_FIRST)
    {
        Some("pcap with nanoseconds")
    } else {
        None
    }
}

/// Why a file is refused as a capture, where it is one of another format.
pub(crate) fn refused_capture<A: Source>(
    alloc: Global,
    called: Called<'_>,
    first: &mut A,
) -> Option<String> {
    let octets = read_all(alloc, first, CAPTURE_LIMIT).ok()?;
    let format = other_format(octets.as_slice())?;
    let path = Text(called.first_path());
    filled(
        alloc,
        "{} is {}: editcap -F pcap {} NEW makes it classic pcap",
        &[path, Text(format), path],
    )
}
