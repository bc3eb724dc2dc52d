//! The rules of a network's shape: its limits, its names, the tree of each channel and its masters.

mod limits;
mod masters;
mod names;
mod trees;

pub(crate) use limits::is_within_limits;
pub(crate) use masters::masters_suffice;
pub(crate) use names::{device_is_new, link_is_new};
pub(crate) use trees::{has_one_cm, is_connected, joins_child_to_switch};
