//! Frames on wires and at their leaving, judged exactly by what is kept of the record that they come from: what arrives
//! at a device and when, what becomes of it, and what becomes of control frames at their leaving.

mod entering;
mod leaving;
mod losing;
mod putting;
mod receiving;

pub use entering::{Entered, Judged, entered_as};
pub use leaving::{Leaving, departure, departure_due};
pub use losing::{is_send_lost, loss_due};
pub use putting::OnWire;
pub use receiving::{Reception, arrival_due, arriving};
