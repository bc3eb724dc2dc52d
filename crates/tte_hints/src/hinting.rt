ghost use Rattle.std.specs.Prelude.{◌≡◌, ◌⊎◌, IsNone};

use crate::argument::ArgumentKind;
use crate::capture::refused_capture;
use crate::layout::{refused_messages, refused_report};
use crate::limit::passed_limit;
use crate::names::unknown_name;
use crate::network::refused_network;
use crate::trace::refused_trace;
use crate::vote::refused_vote;
use crate::wording::words_fault;
use crate::{Program, forms_of};
use std::alloc::Global;
use tte_forms::{Status, Words};
use tte_io::Source;

/// How many octets a network's file has at most.
pub(crate) const FILE_LIMIT: u64 = 262_144;

/// A program and the words of a call of it.
#[derive(Clone, Copy)]
pub struct Called<'x> {
    pub program: Program,
    pub words: &'x Words,
}

impl<'x> Called<'x> {
    /// The command, or no text where there is none.
    pub(crate) fn command(self) -> &'x str {
        self.words.get(0).unwrap_or("")
    }

    /// The path of its first file, or no text where there is none.
    pub fn first_path(self) -> &'x str {
        self.words.get(1).unwrap_or("")
    }

    /// The path of its second file, or no text where there is none.
    pub fn second_path(self) -> &'x str {
        self.words.get(2).unwrap_or("")
    }

    /// What the argument at this place is, from 0, by the first form of the command that has one there.
    pub(crate) fn argument(self, place: usize) -> Option<ArgumentKind> {
        for form in forms_of(self.program) {
            if form.command() == self.command() {
                if let Some(argument) = form.arguments().get(place) {
                    return Some(argument.kind);
                }
            }
        }
        None
    }

    /// Whether its answer itself tells what rules want of a network.
    pub(crate) fn tells_rules(self) -> bool {
        matches!(self.program, Program::Lens) && matches!(self.command(), "slack" | "least")
    }
}

/// What is to be said of a call that ended so, beside its answer. None where that says all.
///
/// The sources give the files of the call once more, where they can; what is said of a file is by what they give. At
/// most the file's limit is read, and a trace up to its fault. Nothing is read of a call that was done. Where memory
/// runs out nothing is said.
pub fn hint<A: Source, B: Source>(
    alloc: Global,
    called: Called<'_>,
    status: Status,
    first: &mut A,
    second: &mut B,
) -> Option<String>
    // A call that went well has no hint.
    ensures done { status ≡ Status.Done → IsNone result }
    ensures unread { (status ≡ Status.Done) ⊎ (status ≡ Status.Usage)
        → (first.new ≡ first.old) × (second.new ≡ second.old) }
{
    match status {
        Status::Usage => words_fault(alloc, called.program, called.words),
        Status::NetworkRefused => refused_network(alloc, called, first),
        Status::TraceRefused | Status::OutsideHypothesis => {
            refused_trace(alloc, called, first, second)
        }
        Status::TooLong => passed_limit(alloc, called, first, second),
        Status::NameRefused => unknown_name(alloc, called, first),
        Status::VoteRefused => refused_vote(alloc, called, first),
        Status::CaptureRefused => refused_capture(alloc, called, first),
        Status::AuditRefused => refused_report(alloc, called, second),
        Status::MessagesRefused => refused_messages(alloc, called, second),
        Status::Done
        | Status::FrameRefused
        | Status::ReadFault
        | Status::WriteFault
        | Status::OutOfMemory
        | Status::GranuleRefused
        | Status::NumberRefused
        | Status::PlanRefused => None,
    }
}
