//! The votes of a run: the ballots of three virtual links at each device, and that two correct senders outvote the
//! third.

mod law;
mod voters;

pub use law::two_outvote_the_third;
pub use voters::Voters;
