use crate::machines::DeviceMachine;
use drift_clock::SegmentClock;
use drift_world::World;

/// The world of the program, whose clocks are exact.
pub type ExactWorld<'a> = World<'a, SegmentClock, DeviceMachine>;
