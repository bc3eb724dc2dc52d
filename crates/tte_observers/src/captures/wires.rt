//! The capture of one way of a link, as a network runs under a trace: a header, and a packet of each frame that the way
//! carries, in the form of a classic pcap file. No line says why an input is refused.

mod capture;
mod frames;
mod running;

pub use running::wire_trace;
