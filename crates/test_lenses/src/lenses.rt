//! Tests of the program `lens`: its forms, and calls that a fault ends.

mod faults;
mod hints;
