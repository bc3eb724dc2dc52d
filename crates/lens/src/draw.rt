//! A part of the run of a report as a picture.

mod drawing;
mod flags;
mod laws;
mod marks;
mod named;
mod putting;
mod signs;
pub(crate) mod spans;
mod subject;
mod windows;

pub use drawing::Draw;
pub use laws::{clocks_law, lines_law, picture_law, reading_law, windows_law};
pub(crate) use named::draw_named;
