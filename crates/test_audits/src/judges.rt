//! Tests of what an audit stands on: histories, judges and the finders of missing records.

mod clocks;
mod dispatches;
mod emissions;
mod events;
mod networks;
mod records;
mod schedules;
mod unpaid;
