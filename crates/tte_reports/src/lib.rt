//! The report of a second file, for each command that takes one: it is read whole and audited (`read_report`), its
//! records are told one after another (`AuditedReport::records`), and where there is none it is said why
//! (`put_no_report`). The command `audit` says no more than that.
#![tactic(auto)]

mod audit_line;
mod auditing;
mod commands;
mod folding;
mod no_report;
mod places;
mod reading;
mod records;

pub use auditing::{Audit, audit_report};
pub use commands::{ReportCommand, answer_accepted, answer_report};
pub use folding::{RecordTaker, take_records};
pub use no_report::{NoReport, put_no_report};
pub use reading::{AuditedReport, read_report};
pub use records::Records;
