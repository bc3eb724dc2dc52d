/// Where a device stands in its synchronisation with the network.
#[derive(Clone, Copy, Debug, PartialEq, Eq)]
pub enum State {
    /// It takes no part.
    Off,
    /// It waits for a frame that tells it the time.
    Integrating,
    /// It has the time of one frame, and no correction yet.
    Joining,
    /// It corrects its clock in each cycle.
    Synchronised,
}
