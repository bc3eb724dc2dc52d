//! Tests of what keeps the common time: clocks, their correction, membership, compression and the synchronisation
// state.

mod collecting;
mod correction;
mod drift;
mod members;
mod states;
mod transparency;
