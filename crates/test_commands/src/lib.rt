//! Tests of the commands of `tte` over one file: captures, calls that a fault ends, and the numbers of statuses.
#![tactic(auto)]

#[cfg(test)]
mod calls;
#[cfg(test)]
mod captures;
#[cfg(test)]
mod faults;
#[cfg(test)]
mod frames;
#[cfg(test)]
mod hints;
#[cfg(test)]
mod statuses;
