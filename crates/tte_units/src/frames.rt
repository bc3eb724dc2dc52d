//! The values that frames carry: addresses, members, protocol control frames and the heads of
//! time-triggered frames.

mod channel;
mod mac;
mod members;
mod pcf;
mod tt;

pub use channel::Channel;
pub use mac::Mac;
pub use members::Members;
pub use pcf::{Pcf, PcfKind};
pub use tt::TtHead;
