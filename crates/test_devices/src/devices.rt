//! Tests of devices: the laws of runs, and what a switch has to send.

mod runs;
mod switches;
