//! The command `why`: a record of a report, what bore on it, and so on by its causes.
#![tactic(auto)]

mod answering;
mod causes;
mod collecting;
mod correcting;
mod dropping;
mod ground;
mod laws;
mod lines;
mod seeking;

pub use answering::Why;
pub use collecting::LastCollection;
pub use ground::{Best, BestHeard, Ground};
pub use laws::{
    best_law, collections_law, decisions_law, middles_law, names_law, row_law, why_law, windows_law,
};
