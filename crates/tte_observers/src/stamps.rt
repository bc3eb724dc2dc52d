//! Stamps of the lines of a trace: by each correct synchronised device, in granules of the common time.

pub mod granules;
mod refused_granule;
mod stamp_line;
mod stamper;
mod stamping;

pub use stamping::stamp_trace;
