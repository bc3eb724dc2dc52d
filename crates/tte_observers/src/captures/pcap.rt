//! Captures of frames, in the form of classic pcap files: a header, and then packets with their
//! stamps. They are read in either byte order, and written the least octet first.
//!
//! - `open_capture` judges the header of a file, and `next_packet` the packet at a place in it.
//!   Each answers the refusal that stands first. `reading_law` says what they find, as a layout.
//! - `put_head` and `put_packet` write a header and a packet, each in one put. `round_trip_law`
//!   says that reading gives back what they wrote.
//!
//! Nothing here takes memory. The form with nanoseconds, and pcapng, are not read.

mod capture;
mod fields;
mod laws;
mod refusal;
mod writing;

pub use capture::{CaptureHead, Packet, next_packet, open_capture};
pub use laws::{reading_law, round_trip_law};
pub use refusal::CaptureRefusal;
pub use writing::{put_head, put_packet};
