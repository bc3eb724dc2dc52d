//! Tests of the lowest crates: units, values, the codec of control frames, and where octets come from and go.

mod codec;
mod edge;
mod frame_values;
mod octets;
mod units;
