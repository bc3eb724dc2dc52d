//! Tests of reports: the line of each record, and what their events have set.

mod audits;
mod lines;
