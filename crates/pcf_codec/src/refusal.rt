use thiserror::Error;

/// Why octets are no protocol control frame.
#[derive(Clone, Copy, Debug, PartialEq, Eq, Error)]
pub enum PcfRefusal {
    /// There are not 60 octets, but so many.
    #[error("{0} octets are no protocol control frame, which has 60")]
    Length(u32),
    /// Octets 12 and 13 are not 89 1D.
    #[error("the EtherType is not 89 1D")]
    EtherType,
    /// The reserved octet at this offset is not zero.
    #[error("the reserved octet {0} is not zero")]
    Reserved(u8),
    /// Octet 28, which is this one, names no type.
    #[error("{0} is no type of a protocol control frame")]
    Kind(u8),
}

/// Why octets are no time-triggered frame.
#[derive(Clone, Copy, Debug, PartialEq, Eq, Error)]
pub enum TtRefusal {
    /// There are not 60 to 1,514 octets, but so many.
    #[error("{0} octets are no time-triggered frame, which has 60 to 1,514")]
    Length(u32),
    /// Octets 12 and 13 are below 06 00, or 89 1D.
    #[error("the EtherType is below 06 00, or that of a protocol control frame")]
    EtherType,
}
