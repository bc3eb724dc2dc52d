use tte_units::Units;
use tte_units::frames::Members;

/// What is emitted for a collection.
#[derive(Clone, Copy, PartialEq, Eq)]
pub struct Compressed {
    /// The point that opened the collection.
    pub opened: Units,
    /// The reading at which it is emitted.
    pub at: Units,
    /// The integration cycle of its frames.
    pub cycle: u32,
    /// The masters that it has points of.
    pub members: Members,
}
