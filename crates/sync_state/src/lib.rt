//! The synchronisation of a device by SAE AS6802: its state, its adjustment and its correction
//! points.
#![tactic(auto)]

mod answers;
pub mod correction;
mod laws;
pub mod membership;
mod plan;
mod state;
mod sync;

pub use answers::{Joined, Verdict};
pub use laws::{corrected_by_points, verdict_is_one};
pub use plan::SyncPlan;
pub use state::State;
pub use sync::{LAST_CYCLE, Sync, is_outnumbered};
