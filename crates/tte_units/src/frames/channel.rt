/// One of the two channels of a network. Each is a tree of switches under one compression master.
#[derive(Clone, Copy, Debug, PartialEq, Eq, PartialOrd, Ord)]
pub enum Channel {
    A,
    B,
}
