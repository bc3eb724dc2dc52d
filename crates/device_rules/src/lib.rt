//! The rules of operation (SAE AS6802) as functions of the network and of where a device stands: what becomes of frames
//! that arrive, how compressed frames are heard, what a compression master collects, how frames leave, and what a
//! correction point comes to. They take any numbers that a report may have. Only an `Intake` keeps something: which
//! time-triggered frames a device took last.
#![tactic(auto)]

mod arriving;
mod collecting;
mod correcting;
mod entrances;
mod first_kind;
pub mod frames;
mod heading;
mod hearing;
mod intake;
pub mod least_key;
mod leaving;
mod network;
mod standpoint;
mod timed;

pub use arriving::{control_arrival, is_cold_start, is_of_other_domain, refused};
pub use collecting::{is_number, point_fault};
pub use correcting::{PointStanding, PointVerdict, correction_value, joined_adjustment, verdict};
pub use entrances::{EnteringRow, Entrances};
pub use first_kind::{TaskKind, TellsKind};
pub use heading::Heading;
pub use hearing::heard_as;
pub use intake::Intake;
pub use leaving::{Departed, departure};
pub use network::{
    cycle_at, is_cm, is_end, is_master, is_parent_of, is_relay, start_of, waits_for, way_from,
    way_to,
};
pub use standpoint::{Standpoint, is_off, is_synchronised};
pub use timed::TimedArrival;
