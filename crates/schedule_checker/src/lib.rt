//! Judges a network by all its rules.
#![tactic(auto)]

mod both_channels;
mod checker;
mod groups;
mod judge;
mod kept;
mod laws;
mod parts;
mod places;
mod ports;
mod refusal;
mod roles;
mod routes;
mod shape;
mod timing;
mod virtual_links;

pub use checker::check;
pub use groups::{Groups, groups_of};
pub use judge::{BrokenRule, Plan, broken_plan, judge_shape};
pub use laws::refusal_is_one;
pub use parts::PlanRule;
pub use refusal::{RuleBroken, Unfit};
pub use timing::{delay_on, pcf_port_time};
