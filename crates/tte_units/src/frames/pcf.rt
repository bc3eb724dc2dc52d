use crate::frames::{Mac, Members};

/// The type of a protocol control frame (SAE AS6802).
#[derive(Clone, Copy, PartialEq, Eq)]
pub enum PcfKind {
    /// IN: it carries the common time while the network is synchronised.
    Integration,
    /// CS: it would start a network.
    ColdStart,
    /// CA: it would acknowledge a cold start.
    ColdStartAck,
}

/// A protocol control frame (SAE AS6802): the value that its 60 octets spell.
#[derive(Clone, Copy, PartialEq, Eq)]
pub struct Pcf {
    pub destination: Mac,
    pub source: Mac,
    /// The integration cycle.
    pub cycle: u32,
    /// The masters that the frame stands for ("membership new").
    pub members: Members,
    /// The sync priority.
    pub priority: u8,
    /// The sync domain.
    pub domain: u8,
    pub kind: PcfKind,
    /// The transparent clock: the delays so far, in units of 2^-16 ns.
    pub clock: u64,
}
