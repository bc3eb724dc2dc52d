//! The commands of the program `lens`, over any source and any sink.
#![tactic(auto)]

pub mod draw;
pub mod events;
pub mod forms;
mod questions;
mod top;

pub use crate::events::{events_answers_exist, storm_events, storm_report_law};
pub use lens_latency::{latency_law, latency_of_network};
pub use lens_page::page_law;
pub use lens_plan::{plan_law, plan_of_network};
pub use lens_schedule::{schedule_law, schedule_of_network};
pub use lens_sheet::{sheet_law, sheet_of_network};
pub use lens_slack::least::{least_law, least_of_network};
pub use lens_slack::{slack_law, slack_of_network, slack_of_rule};
pub use lens_why::{row_law, why_law};
pub use top::{answer_law, lens};
pub use tte_forms::{Status, Words};
