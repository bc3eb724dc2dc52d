//! Tests of traces: how an event is printed, and the hypothesis that events keep.

mod hypothesis;
mod printing;
