//! The octets of the records of a run. A `FrameTrace` is told the records one by one, and gives the octets of the frame
//! of each. What it keeps of a record is small: a control frame as a value, of a scheduled frame its virtual link and
//! its cycle, and the octets of a `send` event once.

mod keeping;
mod kept;
mod law;
mod octets;
mod showing;
mod trace;

pub use keeping::frame_in;
pub use law::delivery_law;
pub use octets::OctetsOfRecord;
pub use trace::FrameTrace;
pub use tte_units::OutOfMemory;
