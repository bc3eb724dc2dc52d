//! Tests of ballots.

mod ballots;
