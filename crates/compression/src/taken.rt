/// What becomes of a point that a collector is given.
#[derive(Clone, Copy, PartialEq, Eq)]
pub enum Taken {
    /// It opens a collection.
    Opened,
    /// It joins the open collection: the first point of its master there.
    Joined,
    /// The open collection has a point of its master already. It is ignored.
    Repeat,
    /// The open collection has another cycle. It is ignored.
    OtherCycle,
}
