//! The commands that tell of a run in other terms, each an observer of its drive: `stamp`, `wire` and `vote`; and
//! `capture`, which reads what `wire` writes.
#![tactic(auto)]

pub mod captures;
mod laws;
pub mod stamps;
pub mod votes;

pub use laws::observers_answer;
