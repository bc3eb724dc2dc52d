//! The text of a plan, and the lines of messages that have none.

mod blocks;
mod ids;
mod line;
mod refusals;

pub(crate) use blocks::plan_lines;
pub(crate) use ids::ids_of;
pub use line::PlanLine;
pub(crate) use line::make_plan_line;
pub(crate) use refusals::{make_excess_line, make_line_refusal, make_short_line, short_row};
