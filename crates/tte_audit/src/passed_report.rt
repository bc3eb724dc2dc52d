use audit_sweep::Index;

/// What is kept of a report that was passed.
#[derive(Drop)]
pub struct PassedReport {
    /// How many records it has.
    pub count: u64,
    /// What its events set and its records show, at any of its times.
    pub index: Index,
}
