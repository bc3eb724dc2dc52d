//! Tests of values and networks, of the mechanisms of a device, of devices, and of traces and the hypothesis on them.
#![tactic(auto)]

#[cfg(test)]
mod clocks;
#[cfg(test)]
mod devices;
#[cfg(test)]
mod networks;
#[cfg(test)]
mod traces;
#[cfg(test)]
mod values;
