//! What is due, owed and found lacking in a list of records that is judged record by record, and the laws that join
//! these. A record is sound or is not, given those before it; a sound list lacks what is due in its gaps; and what is
//! due pays what earlier records owe (`specs/Owed`), so that what is lacking is what nothing paid. Correction points
//! are counted by what the clocks come to, whether records show it or not (`specs/CorrectionNumbers`); the runs are the
//! same so.

mod debt_laws;
mod laws;

pub use debt_laws::{
    arrival_law, change_law, clock_law, debt_law, departure_law, dispatch_law, emission_law,
    event_law, first_debt_law, lack_law, loss_law, permanence_law, point_law, sending_law,
    settled_law,
};
pub use laws::{audit_laws, gap_law, next_law, same_runs_law};
