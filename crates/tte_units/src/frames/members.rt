/// A set of synchronisation masters: bit i stands for the master with member number i.
#[derive(Clone, Copy, PartialEq, Eq)]
pub struct Members(pub u32);
