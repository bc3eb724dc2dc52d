//! The network that NETWORK means with the text behind it, judged against what was asked.

mod extends;
mod joined;
mod served;

pub(crate) use joined::{NoJoin, joined_octets, means_planned};
