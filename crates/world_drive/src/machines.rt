//! The machines of a network's devices: an end system's or a switch's, by the role that the network
//! gives the device.

mod beginning;
mod device_machine;

pub use beginning::machines_of;
pub use device_machine::DeviceMachine;
pub use tte_units::OutOfMemory;
