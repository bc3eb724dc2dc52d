//! How near to one another the clocks of a network stay, in each run within the fault hypothesis.
#![tactic(auto)]

pub mod falls;
mod laws;
pub mod traffic;

pub use laws::{
    clocks_keep_the_span, clocks_keep_their_cycles, clocks_keep_world_time, clocks_stay_together,
    dispatches_halve, dispatches_stay_near, end_systems_come_in, joiners_come_in,
    mended_channels_come_in, time_is_kept, values_are_reached_on_time,
};
