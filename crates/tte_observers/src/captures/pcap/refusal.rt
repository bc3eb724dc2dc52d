use thiserror::Error;

/// Why a file is no capture.
#[derive(Clone, Copy, Debug, PartialEq, Eq, Error)]
pub enum CaptureRefusal {
    /// There are not 24 octets, but so many.
    #[error("{0} octets are no header of a capture, which has 24")]
    Header(u32),
    /// The first four octets are the magic in neither byte order.
    #[error("the magic is not a1b2c3d4, in either byte order")]
    Magic,
    /// The version is not 2.4.
    #[error("the version is not 2.4")]
    Version,
    /// The low 16 bits of the link type are not 1.
    #[error("the link type is not 1, Ethernet")]
    LinkType,
    /// A packet has more than 262,144 octets: so many.
    #[error("a packet has {0} octets, and 262,144 are the most")]
    PacketLength(u32),
    /// The file ends within a packet.
    #[error("the last packet is cut")]
    Cut,
}
