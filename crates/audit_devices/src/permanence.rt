//! What becomes of frames that are permanent, and which clusters compression masters send, by where a device stands.

mod hearer;
mod reach;
mod ripes;

pub use hearer::Hearer;
