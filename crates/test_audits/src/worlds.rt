//! Tests of what drives a world: its queues, its machines, and the summary of a storm.

mod machines;
mod queue;
mod summary;
mod timers;
