//! The program `lens`.
#![tactic(auto)]

use lens::{Status, Words, lens};
use std::alloc::Global;
use std::process::ExitCode;
use tte_hints::{Answers, Program, run_program};
use tte_io::{Sink, Source};

/// The program `lens`, by its call.
struct Lens;

impl Answers for Lens {
    fn program() -> Program {
        Program::Lens
    }

    fn answer<A: Source, B: Source, K: Sink>(
        alloc: Global,
        words: &Words,
        first: &mut A,
        second: &mut B,
        out: &mut K,
    ) -> Status {
        lens(alloc, words, first, second, out)
    }
}

fn main(rt: HostRuntime) -> ExitCode {
    run_program::<Lens, HostRuntime>(&rt, rt.alloc())
}
