use net_plan::VlId;

/// The three virtual links of a vote, in the order of the words.
#[derive(Clone, Copy, PartialEq, Eq)]
pub struct Voters {
    pub first: VlId,
    pub second: VlId,
    pub third: VlId,
}
