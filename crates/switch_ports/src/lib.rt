//! A switch as it behaves by itself: a relay or a compression master. It passes, collects and hears
//! control frames, corrects its clock, and takes time-triggered frames and dispatches them. Only at a
//! correction does it go through all rows that leave it: a taking looks at those of one virtual link,
//! and the next dispatch is found in as many steps as their number has binary digits.
#![tactic(auto)]

mod arriving;
mod correcting;
mod departures;
mod hearing;
mod machine;
mod pointing;
mod site;
mod standpoint;
mod switch;
mod timed;

pub use departures::{Departure, Dispatch, Held, SwitchRow, TakenFrameAt};
pub use site::{Peer, Port, Site};
pub use standpoint::Standpoint;
pub use switch::Switch;
