//! Sets of masters, and the protocol control frames that a device has heard since its last
//! correction.

mod frame;
mod heard;
mod laws;
mod members;

pub use frame::HeardFrame;
pub use heard::Heard;
pub use laws::{count_is_of_members, one_more_member, summary_is_one};
pub use members::{count, join, one};
