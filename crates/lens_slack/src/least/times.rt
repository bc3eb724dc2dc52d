/// The five times of a network that the rules of times bound from below, in units of 2^-16 ns.
#[derive(Clone, Copy, PartialEq, Eq)]
pub struct Times {
    pub dmax: u64,
    pub settled: u64,
    pub precision: u64,
    pub correction: u64,
    pub tt_start: u64,
}
