//! What a network has where a rule bounds a number of it, and the room that is left or what is short.
#![tactic(auto)]

mod bounds;
mod laws;
pub mod least;
mod lines;
mod measuring;
mod slacking;
mod spot;
mod step;
mod tightest;

pub use laws::slack_law;
pub use lines::make_finding_line;
pub use slacking::{put_broken, slack_of_network, slack_of_rule};
pub use spot::{Beside, BoundedNumber, Finding, Measure};
