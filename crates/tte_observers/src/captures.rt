//! What the command over a capture does: it shows the packets of a file, and the control frames among them.

mod capture_line;
mod capturing;
pub mod pcap;
pub mod wires;

pub use capturing::{capture_file, capture_law};
