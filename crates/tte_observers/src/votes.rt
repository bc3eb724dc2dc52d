//! Votes of three virtual links at every receiver, over the run of a network under a trace.

pub mod ballots;
pub mod law;
mod naming;
mod putting;
mod refused;
pub mod tmr;
mod vote_line;
mod voter;
mod voting;

pub use voting::vote_trace;
