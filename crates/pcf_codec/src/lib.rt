//! Frames as octets: protocol control frames whole, read and written, and the heads of
//! time-triggered frames.
#![tactic(auto)]

mod ethertype;
mod fields;
mod law;
mod pcf;
mod reader;
mod refusal;
mod tt;

pub use ethertype::is_pcf;
pub use fields::{four_octets, two_octets};
pub use law::spelling_law;
pub use pcf::{PCF_LENGTH, decode, encode};
pub use reader::PcfReader;
pub use refusal::{PcfRefusal, TtRefusal};
pub use tt::decode_tt;
