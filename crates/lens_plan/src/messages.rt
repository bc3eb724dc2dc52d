//! The messages of a file, a line each.

mod all;
mod line;
mod lines;
mod message;
mod reading;
mod receivers;
mod refusal;
mod words;

pub use all::read_messages;
pub use message::Message;
pub use refusal::{MessageRefusal, NoMessages, RefusedLine};
pub(crate) use words::is_end_system;
pub use words::{is_name_text, time_spelled};
