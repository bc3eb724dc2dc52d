//! What a whole world keeps of a run: the sources of records, and how a record is given and a source worked off.
#![tactic(auto)]

mod laws;
pub mod steps;

pub use laws::{
    acts_are_few, acts_grow, due_is_sourced, few_are_emitted, first_settled_is_next, given_step,
    nothing_comes_before, nothing_settled_is_all, run_goes_on_by_event, run_stays_under_more,
};
