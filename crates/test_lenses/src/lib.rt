//! Tests of the program `lens`.
#![tactic(auto)]

#[cfg(test)]
mod calls;
#[cfg(test)]
mod lenses;
