//! The program `tte`.
#![tactic(auto)]

use std::alloc::Global;
use std::process::ExitCode;
use tte_hints::{Answers, Program, run_program};
use tte_io::{Sink, Source};
use tte_run::{Status, Words, tte};

/// The program `tte`, by its call.
struct Tte;

impl Answers for Tte {
    fn program() -> Program {
        Program::Tte
    }

    fn answer<A: Source, B: Source, K: Sink>(
        alloc: Global,
        words: &Words,
        first: &mut A,
        second: &mut B,
        out: &mut K,
    ) -> Status {
        tte(alloc, words, first, second, out)
    }
}

fn main(rt: HostRuntime) -> ExitCode {
    run_program::<Tte, HostRuntime>(&rt, rt.alloc())
}
