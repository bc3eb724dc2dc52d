//! What a device's clock comes to at a time, judged exactly by the records before: the values that it reaches, what a
//! master sends, its correction points, its changes of state, and how it stands at the end.

mod changing;
mod correcting;
mod ending;
mod finding;
mod moment;
mod network;
mod reaching;
mod sending;

pub use changing::{Bringer, StateChange, changes_state};
pub use correcting::{Correction, Point, coming_cycle, coming_point, corrects};
pub use ending::{EndClock, shows_clock};
pub use finding::{Crossed, Series, next_crossing};
pub use moment::DeviceMoment;
pub use reaching::{is_up, reaches};
pub use sending::{MasterSending, beginnings, next_sending, sends};
