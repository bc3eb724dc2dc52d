/// A rule that a network breaks.
#[derive(Clone, Copy, Debug, PartialEq, Eq)]
pub struct RuleBroken {
    /// The rule's number, from 1 to 24.
    pub number: u8,
    /// The place at which it is broken, from 0: that of a device, a link, a virtual link or a row,
    /// or the number of a part of the rule.
    pub index: u32,
}

/// Why a network is not accepted.
#[derive(Clone, Copy, Debug, PartialEq, Eq)]
pub enum Unfit {
    /// The first rule that it breaks, in the order of their numbers, and the first place.
    Rule(RuleBroken),
    /// Memory ran out.
    OutOfMemory,
}
