//! What standard error tells of a call that is refused: which argument or word is wrong, and what it must be. And the
//! body that the two programs share.
#![tactic(auto)]

mod argument;
mod breach;
mod capture;
mod encoding;
mod form;
mod hinting;
mod key;
mod layout;
mod limit;
mod line_fault;
mod names;
mod naming;
mod network;
mod part;
mod past;
mod program;
mod running;
mod saying;
mod trace;
mod unread;
mod vote;
mod wording;

pub use argument::Argument;
pub use form::{CommandForm, forms_of};
pub use hinting::{Called, hint};
pub use program::Program;
pub use running::{Answers, run_program};
pub use unread::Unread;
