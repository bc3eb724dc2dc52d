//! Tests of runs, and of commands that follow them, where a read, a put or a call to pass on fails.

mod calm_cycles;
mod cut_short;
mod followed;
mod tracing;
