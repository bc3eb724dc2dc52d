//! Each step of a world carries it on: where it stands for a run, it stands again.

mod laws;

pub use laws::{
    acted_turn, acts_add_up, acts_are_bounded, acts_bring_few, applied_step, befell_step, begun,
    clock_turn, correction_ends, heard_turn, left_turn, passed_step, ripened_turn,
};
