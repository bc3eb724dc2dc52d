//! What an audit goes by, with no record of its own: when a list of records is a run, judged record by record; what the
//! events of a report have set at any time; and the clusters of a compression master's points as these grow.
#![tactic(auto)]

pub mod collections;
pub mod events;
pub mod law;
