use crate::Program;
use crate::argument::ArgumentKind;
use crate::capture::CAPTURE_LIMIT;
use crate::hinting::{Called, FILE_LIMIT};
use crate::saying::Hole::{Count, Text};
use crate::saying::filled;
use std::alloc::Global;
use tte_io::{ReadAll, Source, read_all};

/// How many octets a report has at most for `lens`.
const LENS_LIMIT: u64 = 268_435_456;

/// How many octets a report has at most for `tte`.
const REPORT_LIMIT: u64 = 16_777_216;

/// How many octets a report has at most for the program.
fn report_limit(program: Program) -> u64 {
    match program {
        Program::Tte => REPORT_LIMIT,
        Program::Lens => LENS_LIMIT,
    }
}

/// How many octets the file that an argument of the program names has at most.
fn most_octets(program: Program, argument: Option<ArgumentKind>) -> u64 {
    match argument {
        Some(ArgumentKind::Report) => report_limit(program),
        Some(ArgumentKind::Capture) => CAPTURE_LIMIT,
        Some(_) | None => FILE_LIMIT,
    }
}

/// Whether the source has more octets than that. None where it can't be read.
fn exceeds<S: Source>(alloc: Global, most: u64, source: &mut S) -> Option<bool> {
    match read_all(alloc, source, most) {
        Ok(_) => Some(false),
        Err(ReadAll::TooLong) => Some(true),
        Err(ReadAll::Fault | ReadAll::OutOfMemory) => None,
    }
}

/// That a file has more octets than that.
fn too_many_octets(alloc: Global, path: &str, most: u64) -> Option<String> {
    filled(
        alloc,
        "{} has more than {} octets",
        &[Text(path), Count(most)],
    )
}

/// The limits, where none of them is known to be passed.
fn one_of_the_limits(alloc: Global, program: Program) -> Option<String> {
    filled(
        alloc,
        "more than is read: 262144 octets, {} of a report, 16777216 of a capture, or 2^32 lines of a trace",
        &[Count(report_limit(program))],
    )
}

/// That a network with the text of its plan has too many octets.
fn too_long_a_plan(alloc: Global, path: &str) -> Option<String> {
    filled(
        alloc,
        "{} with the text of its plan would have more than {} octets",
        &[Text(path), Count(FILE_LIMIT)],
    )
}

/// The limit of its second file that a call passed, or that of its plan or its picture.
fn second_limit<B: Source>(alloc: Global, called: Called<'_>, second: &mut B) -> Option<String> {
    let path = called.second_path();
    let argument = called.argument(1);
    if matches!(argument, Some(ArgumentKind::Trace)) {
        return filled(alloc, "{} has 2^32 lines or more", &[Text(path)]);
    }
    let most = most_octets(called.program, argument);
    match exceeds(alloc, most, second) {
        Some(true) => too_many_octets(alloc, path, most),
        Some(false) if matches!(argument, Some(ArgumentKind::Messages)) => {
            too_long_a_plan(alloc, called.first_path())
        }
        Some(false) => {
            let wide = "the picture would be wider than 65536 pixels; draw a part of the run";
            String::from_str(alloc, wide).ok()
        }
        None => one_of_the_limits(alloc, called.program),
    }
}

/// Which limit a call passed.
pub(crate) fn passed_limit<A: Source, B: Source>(
    alloc: Global,
    called: Called<'_>,
    first: &mut A,
    second: &mut B,
) -> Option<String> {
    let most = most_octets(called.program, called.argument(0));
    match exceeds(alloc, most, first) {
        Some(true) => too_many_octets(alloc, called.first_path(), most),
        Some(false) => second_limit(alloc, called, second),
        None => one_of_the_limits(alloc, called.program),
    }
}
