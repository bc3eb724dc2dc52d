ghost use Rattle.std.specs.Prelude.{◌≡◌, ◌≢◌, All};
ghost use Rattle.lens_latency.specs.Answer.{IsLatencyAnswer, IsLatencyOf, IsLatencyReport, latency_answer, told_answer};
ghost use Rattle.lens_latency.specs.{Comings.HasNames, Lines.{latency_line, told_line}};
ghost use Rattle.{net_plan.specs.Ranges.IsInRange, tte_forms.specs.Putting.Over};
ghost use Rattle.tte_forms.specs.{Answering.{AnswersOne, Gives, GivesAnswer}, networks.Checking.IsCheckStatus};
ghost use Rattle.tte_forms.specs.{Taking.TakesUpTo, frames.Answer.file_limit};
ghost use Rattle.tte_forms.specs.Faults.{HasCause, IsWanted, PutFailed, ReadFailed};
ghost use Rattle.tte_reports.specs.Answer.{IsAuditStatus};

use crate::comings::comings_of;
use crate::lines::{make_latency_line, make_told_line};
use crate::seeing::told_by;
use crate::{Coming, ReportedComing};
use net_plan::Network;
use schedule_tables::Accepted;
use std::alloc::Global;
use tte_forms::{LineMaker, Status, accept, put_lines, put_no_network};
use tte_io::{LineText, Sink, Source};
use tte_reports::{AuditedReport, ReportCommand};

/// Tells of the network of a file, for each virtual link and each of its receivers, how long a frame is on its way from
/// the sender's dispatch by either channel, and at which places of the receiver's cycle it comes.
///
/// `latency_law` says that each frame that is owed comes at such a place, and that its way takes such a time.
pub fn latency_of_network<A: Source, K: Sink>(alloc: Global, source: &mut A, out: &mut K) -> Status
    ensures general { Over K.Sink out.old out.new (AnswersOne IsLatencyAnswer (A.left source.old) result) }
    ensures statuses { IsCheckStatus result }
    // Where the source failed, nothing was written.
    ensures faults { HasCause result (ReadFailed A.Source source.old source.new × (out.new ≡ out.old))
        (PutFailed K.Sink out.old out.new) }
    ensures taken { TakesUpTo file_limit (A.left source.old) (A.left source.new) }
{
    match accept(alloc, source) {
        Ok(accepted) => put_latency_of(alloc, &accepted, out),
        Err(cause) => put_no_network(cause, out),
    }
}

/// Tells it of an accepted network.
fn put_latency_of<K: Sink>(alloc: Global, accepted: &Accepted, out: &mut K) -> Status
    ensures gives { Over K.Sink out.old out.new (GivesAnswer (IsLatencyOf accepted.now) result) }
    ensures statuses { IsCheckStatus result }
    ensures write { result ≡ Status.WriteFault → PutFailed K.Sink out.old out.new }
    ensures read { result ≢ Status.ReadFault }
{
    let network = accepted.network();
    match comings_of(alloc, network) {
        Ok(comings) => put_comings(network, comings.as_slice(), out),
        Err(_) => Status::OutOfMemory,
    }
}

/// The lines of the virtual links and receivers of a network.
#[derive(Drop)]
struct LatencyLines<'a> {
    network: &'a Network,
}

impl LineMaker<Coming> for LatencyLines<'_> {
    ghost fit = { λ lines. IsInRange lines.network.now };

    ghost takes = { λ lines coming. HasNames lines.network.now coming };

    ghost text = { λ lines coming. latency_line lines.network.now coming };

    fn make(&self, line: &mut LineText, thing: &Coming) {
        make_latency_line(line, self.network, thing);
    }
}

impl LineMaker<ReportedComing> for LatencyLines<'_> {
    ghost fit = { λ lines. IsInRange lines.network.now };

    ghost takes = { λ lines told. HasNames lines.network.now told.coming };

    ghost text = { λ lines told. told_line lines.network.now told };

    fn make(&self, line: &mut LineText, thing: &ReportedComing) {
        make_told_line(line, self.network, thing);
    }
}

/// Puts a line for each, and passes them on.
fn put_comings<K: Sink>(network: &Network, comings: &[Coming], out: &mut K) -> Status
    requires range { IsInRange network.now }
    requires names { All (HasNames network.now) comings.now }
    ensures gives { Over K.Sink out.old out.new (Gives (latency_answer network.now comings.now) result) }
    ensures status { IsWanted Status.Done result (PutFailed K.Sink out.old out.new) }
{
    put_lines(&LatencyLines { network }, comings, out)
}

/// Tells the same, and of each line how many frames of a report go back to the sender's dispatch, and the least and the
/// greatest time between.
pub struct Latency;

impl<K: Sink> ReportCommand<K> for Latency {
    ghost answers = { λ command network notes end answer. IsLatencyReport network notes end answer };

    ghost ends = { λ command status. IsAuditStatus status };

    ghost audits = { λ command status is. is };

    fn put(&self, alloc: Global, network: &Network, report: &AuditedReport, out: &mut K) -> Status {
        match told_by(alloc, network, report) {
            Ok(told) => put_told(network, told.as_slice(), out),
            Err(_) => Status::OutOfMemory,
        }
    }
}

/// Puts a line for each with what was seen, and passes them on.
fn put_told<K: Sink>(network: &Network, told: &[ReportedComing], out: &mut K) -> Status
    requires range { IsInRange network.now }
    requires names { All (λ one. HasNames network.now one.coming) told.now }
    ensures gives { Over K.Sink out.old out.new (Gives (told_answer network.now told.now) result) }
    ensures status { IsWanted Status.Done result (PutFailed K.Sink out.old out.new) }
{
    put_lines(&LatencyLines { network }, told, out)
}
