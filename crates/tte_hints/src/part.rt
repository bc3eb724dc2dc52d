ghost use Rattle.net_plan.specs.Ranges.{IsInRange};

use net_plan::{Network, Way};
use std::str;
use trace_text::{device_spelled, link_spelled, way_text};
use tte_forms::number_up_to;

/// The greatest time and delay of a trace, in units of 2^-16 ns.
const LATEST: u64 = 1 << 60;

/// The greatest magnitude of a rate, in parts per 10^9.
const FASTEST: u64 = 1_000_000_000;

/// What a word of an event's line stands for.
#[derive(Clone, Copy)]
enum PartKind {
    /// A time or a delay.
    Units,
    /// What happens to the network.
    Event,
    Device,
    Link,
    Way,
    Rate,
    Frame,
}

/// A part of an event's line.
#[derive(Clone, Copy)]
pub(crate) struct Part {
    /// Its name in the pages.
    pub(crate) name: &'static str,
    /// What its word must be.
    pub(crate) must_be: &'static str,
    kind: PartKind,
}

const UNITS: &str =
    "a whole number of units of 2^-16 ns (65536000 to the microsecond) from 0 to 2^60, with no sign, no leading zero \
     and no other unit";

const TIME: Part = Part {
    name: "TIME",
    must_be: UNITS,
    kind: PartKind::Units,
};

const EVENT: Part = Part {
    name: "the event",
    must_be: "rate, wire, hold, cut, heal, on, break, send or end",
    kind: PartKind::Event,
};

const DEVICE: Part = Part {
    name: "DEVICE",
    must_be: "the name of a device of the network",
    kind: PartKind::Device,
};

const LINK: Part = Part {
    name: "LINK",
    must_be: "the name of a link of the network",
    kind: PartKind::Link,
};

const WAY: Part = Part {
    name: "WAY",
    must_be: "up or down",
    kind: PartKind::Way,
};

const DELAY: Part = Part {
    name: "UNITS",
    must_be: UNITS,
    kind: PartKind::Units,
};

const RATE: Part = Part {
    name: "PPB",
    must_be: "a whole number of parts per 10^9 (1000 to the ppm) from -1000000000 to 1000000000, with no plus sign, no \
              leading zero and no unit",
    kind: PartKind::Rate,
};

const FRAME: Part = Part {
    name: "HEX",
    must_be: "a frame of 60 to 1514 octets, two hexadecimal digits to each",
    kind: PartKind::Frame,
};

/// The parts of each event's line, by the word of the event.
const LINES: &[(&str, &[Part])] = &[
    ("rate", &[TIME, EVENT, DEVICE, RATE]),
    ("wire", &[TIME, EVENT, LINK, WAY, DELAY]),
    ("hold", &[TIME, EVENT, LINK, WAY, DELAY]),
    ("cut", &[TIME, EVENT, LINK, WAY]),
    ("heal", &[TIME, EVENT, LINK, WAY]),
    ("on", &[TIME, EVENT, DEVICE]),
    ("break", &[TIME, EVENT, DEVICE]),
    ("send", &[TIME, EVENT, LINK, FRAME]),
    ("end", &[TIME, EVENT]),
];

/// The parts of the line of an event with this word. None where it is none.
fn parts_with(event: &[u8]) -> Option<&'static [Part]> {
    for (word, parts) in LINES {
        if word.as_bytes() == event {
            return Some(parts);
        }
    }
    None
}

/// The parts of a line with this word for its event: the first two where it is none.
pub(crate) fn parts_of(event: &[u8]) -> &'static [Part] {
    parts_with(event).unwrap_or(&[TIME, EVENT])
}

impl Part {
    /// Whether the word may stand for it.
    pub(crate) fn admits(&self, network: &Network, word: &[u8]) -> bool
        requires { IsInRange network.now }
    {
        match self.kind {
            PartKind::Units => is_number(LATEST, word),
            PartKind::Event => parts_with(word).is_some(),
            PartKind::Device => device_spelled(network, word).is_some(),
            PartKind::Link => link_spelled(network, word).is_some(),
            PartKind::Way => is_way(word),
            PartKind::Rate => is_rate(word),
            PartKind::Frame => is_frame(word),
        }
    }
}

/// Whether the word is the decimal of a number up to `most`.
fn is_number(most: u64, word: &[u8]) -> bool {
    match str::from_utf8(word) {
        Ok(text) => number_up_to(most, text).is_some(),
        Err(_) => false,
    }
}

/// Whether the word is the decimal of a rate.
fn is_rate(word: &[u8]) -> bool {
    match word.split_first() {
        Some((b'-', magnitude)) => magnitude != b"0".as_slice() && is_number(FASTEST, magnitude),
        Some(_) | None => is_number(FASTEST, word),
    }
}

/// Whether the word is that of a way.
fn is_way(word: &[u8]) -> bool {
    word == way_text(Way::Up).as_bytes() || word == way_text(Way::Down).as_bytes()
}

/// Whether the word spells the octets of a frame.
fn is_frame(word: &[u8]) -> bool {
    let octets = word.len() / 2;
    word.len() % 2 == 0 && 60 <= octets && octets <= 1514 && word.iter().all(u8::is_ascii_hexdigit)
}
