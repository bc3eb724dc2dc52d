//! What the tests of several crates share: the worked network and others of its numbers, the report of its first
//! cycle, edits of texts, the networks that texts are, calls of the programs, and the octets of frames.
#![tactic(auto)]

mod calls;
mod calm;
mod edits;
mod frames;
mod networks;
mod reading;

pub use calls::{Call, Fails, call_of_one, call_of_two, ends_of, words_of};
pub use calm::CALM;
pub use edits::{Edit, Misfit, edited, edited_by};
pub use frames::{FRAME, HEAD, SENT, TIMED};
pub use networks::{WORKED, numbers, silent, star};
pub use reading::{NoNetwork, accepted_of, network_of, worked};
