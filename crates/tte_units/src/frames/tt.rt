use crate::frames::Mac;

/// The head of a time-triggered frame, with the frame's length.
#[derive(Clone, Copy, PartialEq, Eq)]
pub struct TtHead {
    /// The critical-traffic marker.
    pub marker: u32,
    /// The virtual link's id.
    pub id: u16,
    pub source: Mac,
    pub ethertype: u16,
    /// How many octets the frame has, without its check sequence: 60 to 1,514.
    pub length: u16,
}
