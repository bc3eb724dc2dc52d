//! A report as a page to be looked at: one text in HTML that holds the lines of the report, and shows them by itself.
#![tactic(auto)]

mod answering;
mod closing;
mod laws;
mod lines;
mod opening;
mod putting;
mod telling;

pub use answering::Page;
pub use laws::page_law;
