//! What a device dispatches, judged exactly by the records before.

mod crossing;
mod dispatching;
mod exits;
mod holding;
mod judging;
mod leaving;
mod leavings;
mod sending;

pub use crossing::crossing_time;
pub use dispatching::dispatches;
pub use exits::Exits;
pub use holding::is_at_hand;
pub use judging::{At, Loss, is_cut, loses_dispatch, sends_timed};
pub use leaving::{Dispatch, LeavingRow};
pub use sending::sends_some;
