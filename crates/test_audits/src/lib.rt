//! Tests of the lines of reports, of audits and what they stand on, and of what drives a world.
#![tactic(auto)]

#[cfg(test)]
mod audits;
#[cfg(test)]
mod bodies;
#[cfg(test)]
mod judges;
#[cfg(test)]
mod worlds;
