//! From messages to a schedule: virtual links and rows for a network.
#![tactic(auto)]

mod answering;
mod joining;
mod laws;
mod messages;
mod places;
mod reading;
mod text;

pub use answering::plan_of_network;
pub use laws::plan_law;
pub use messages::{
    Message, MessageRefusal, NoMessages, RefusedLine, is_name_text, read_messages, time_spelled,
};
pub use places::{best_is_earliest, best_is_one, no_plan_is_one, plan_is_one, plan_or_none};
pub use text::PlanLine;
