//! Where in the cycle the rows of a message have a place.

mod best;
mod filling;
mod fitting;
mod in_order;
mod laws;
mod limits;
mod moving;
mod offsets;
mod ordering;
mod placing;
mod planning;
mod scoring;
mod there;
mod trying;
mod ways;

pub(crate) use best::Attempt;
pub(crate) use in_order::rows_in_order;
pub use laws::{best_is_earliest, best_is_one, no_plan_is_one, plan_is_one, plan_or_none};
pub(crate) use limits::Excess;
pub(crate) use placing::Placed;
pub(crate) use planning::{NoPlan, plan_rows};
pub(crate) use scoring::{is_last, schedule_end};
pub(crate) use ways::Hop;
