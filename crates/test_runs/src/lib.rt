//! Tests of the commands of `tte` that follow a run: what cuts them short, granules and ballots.
#![tactic(auto)]

#[cfg(test)]
mod calls;
#[cfg(test)]
mod runs;
#[cfg(test)]
mod stamps;
#[cfg(test)]
mod votes;
