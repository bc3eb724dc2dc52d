ghost use Rattle.std.specs.Prelude.{◌≡◌, ◌≢◌};
ghost use Rattle.lens_schedule.specs.{Answer.{IsScheduleAnswer, IsScheduleOf, picture_answer}, Lines.part_line};
ghost use Rattle.{net_plan.specs.Ranges.IsInRange, tte_forms.specs.Putting.Over};
ghost use Rattle.tte_forms.specs.{Answering.{AnswersOne, Gives, GivesAnswer}, networks.Checking.IsCheckStatus};
ghost use Rattle.tte_forms.specs.Faults.{HasCause, IsWanted, PutFailed, ReadFailed};
ghost use Rattle.tte_forms.specs.{Taking.TakesUpTo, frames.Answer.file_limit};

use crate::SchedulePart;
use crate::picture::picture_of;
use crate::text::make_part_line;
use lens_svg::Title;
use net_plan::Network;
use schedule_tables::{Accepted, entries_law, entries_of};
use std::alloc::Global;
use tte_forms::{LineMaker, Status, Words, accept, put_lines, put_no_network};
use tte_io::{LineText, Sink, Source};

/// Draws the network of a file: the tree of each channel, and below it the cycle, with a lane for each port that has
/// rows and a box for each row's frame.
pub fn schedule_of_network<A: Source, K: Sink>(
    alloc: Global,
    words: &Words,
    source: &mut A,
    out: &mut K,
) -> Status
    ensures general { Over K.Sink out.old out.new (AnswersOne (IsScheduleAnswer words.now) (A.left source.old) result) }
    ensures statuses { IsCheckStatus result }
    // Where the source failed, nothing was written.
    ensures faults { HasCause result (ReadFailed A.Source source.old source.new × (out.new ≡ out.old))
        (PutFailed K.Sink out.old out.new) }
    ensures taken { TakesUpTo file_limit (A.left source.old) (A.left source.new) }
{
    match accept(alloc, source) {
        Ok(accepted) => put_schedule_of(alloc, words, &accepted, out),
        Err(cause) => put_no_network(cause, out),
    }
}

/// Draws an accepted network.
fn put_schedule_of<K: Sink>(
    alloc: Global,
    words: &Words,
    accepted: &Accepted,
    out: &mut K,
) -> Status
    ensures gives { Over K.Sink out.old out.new (GivesAnswer (IsScheduleOf words.now accepted.now) result) }
    ensures statuses { IsCheckStatus result }
    ensures write { result ≡ Status.WriteFault → PutFailed K.Sink out.old out.new }
    ensures read { result ≢ Status.ReadFault }
{
    entries_law();
    let network = accepted.network();
    let title = Title::of(words);
    let entries = match entries_of(alloc, network) {
        Ok(entries) => entries,
        Err(_) => return Status::OutOfMemory,
    };
    match picture_of(alloc, network, entries.as_slice()) {
        Ok(parts) => put_parts(network, &title, parts.as_slice(), out),
        Err(_) => Status::OutOfMemory,
    }
}

/// The lines of a picture's parts.
#[derive(Drop)]
struct PartLines<'a> {
    network: &'a Network,
    title: &'a Title,
}

impl LineMaker<SchedulePart> for PartLines<'_> {
    ghost fit = { λ lines. IsInRange lines.network.now };

    ghost takes = { λ lines part. Unit {0} };

    ghost text = { λ lines part. part_line lines.network.now lines.title.now part };

    fn make(&self, line: &mut LineText, thing: &SchedulePart) {
        make_part_line(line, self.network, self.title, thing);
    }
}

/// Puts the line of each part, and passes them on.
fn put_parts<K: Sink>(
    network: &Network,
    title: &Title,
    parts: &[SchedulePart],
    out: &mut K,
) -> Status
    requires { IsInRange network.now }
    ensures gives { Over K.Sink out.old out.new (Gives (picture_answer network.now title.now parts.now) result) }
    ensures status { IsWanted Status.Done result (PutFailed K.Sink out.old out.new) }
{
    put_lines(&PartLines { network, title }, parts, out)
}
