//! Where octets come from and where they go.
#![tactic(auto)]

mod ahead;
mod digits;
mod edge;
mod ends;
mod held;
mod hexadecimal;
mod laws;
mod line_text;
mod lines;
mod memory;
mod sinks;
mod sources;
mod taking;
mod whole;

pub use edge::{LazyFile, PathText, StdSink};
pub use ends::{Sink, SinkFailed, Source, SourceFailed};
pub use laws::lines_in_order_law;
pub use line_text::LineText;
pub use lines::{LineReader, LineTaken};
pub use sinks::MemorySink;
pub use sources::{MemorySource, SteadySource};
pub use tte_units::OutOfMemory;
pub use whole::{Bytes, ReadAll, read_all};
