//! Time in whole units of 2^-16 ns, rates of clocks and speeds of links.
#![tactic(auto)]

pub mod frames;
mod memory;
mod rates;
mod speed;
mod units;

pub use memory::OutOfMemory;
pub use rates::{Ppb, slip};
pub use speed::{Speed, octets};
pub use units::{READING_LIMIT, Units, magnitude, mean};
