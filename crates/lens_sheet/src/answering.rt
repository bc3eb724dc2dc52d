ghost use Rattle.std.specs.Prelude.{◌≡◌, ◌≢◌, All};
ghost use Rattle.lens_sheet.specs.Answer.{IsSheetAnswer, IsSheetOf, sheet_answer};
ghost use Rattle.lens_sheet.specs.{Sheet.{IsWritable, line_text}, Weights.AreSmall};
ghost use Rattle.{net_plan.specs.Ranges.IsInRange, tte_forms.specs.Putting.Over};
ghost use Rattle.tte_forms.specs.{Answering.{AnswersOne, Gives, GivesAnswer}, networks.Checking.IsCheckStatus};
ghost use Rattle.tte_forms.specs.{Taking.TakesUpTo, frames.Answer.file_limit};
ghost use Rattle.tte_forms.specs.Faults.{HasCause, IsWanted, PutFailed, ReadFailed};

use crate::lines::make_sheet_line;
use crate::sheet::sheet_of;
use crate::weights::weights_of;
use crate::{SheetLine, Weights};
use net_plan::Network;
use schedule_tables::Accepted;
use std::alloc::Global;
use tte_forms::{LineMaker, Status, accept, put_lines, put_no_network};
use tte_io::{LineText, Sink, Source};

/// Tells of the network of a file its numbers and what they are made of, the loads of the ways by which rows go,
/// falling, and each virtual link with its receivers: in microseconds, in parts per million and in percent.
///
/// `sheet_law` says that each figure is the nearest one of three places, and that no room is short.
pub fn sheet_of_network<A: Source, K: Sink>(alloc: Global, source: &mut A, out: &mut K) -> Status
    ensures general { Over K.Sink out.old out.new (AnswersOne IsSheetAnswer (A.left source.old) result) }
    ensures statuses { IsCheckStatus result }
    // Where the source failed, nothing was written.
    ensures faults { HasCause result (ReadFailed A.Source source.old source.new × (out.new ≡ out.old))
        (PutFailed K.Sink out.old out.new) }
    ensures taken { TakesUpTo file_limit (A.left source.old) (A.left source.new) }
{
    match accept(alloc, source) {
        Ok(accepted) => put_sheet_of(alloc, &accepted, out),
        Err(cause) => put_no_network(cause, out),
    }
}

/// Tells it of an accepted network.
fn put_sheet_of<K: Sink>(alloc: Global, accepted: &Accepted, out: &mut K) -> Status
    ensures gives { Over K.Sink out.old out.new (GivesAnswer (IsSheetOf accepted.now) result) }
    ensures statuses { IsCheckStatus result }
    ensures write { result ≡ Status.WriteFault → PutFailed K.Sink out.old out.new }
    ensures read { result ≢ Status.ReadFault }
{
    let network = accepted.network();
    match sheet_of(alloc, network) {
        Ok(sheet) => put_sheet(network, &weights_of(network), sheet.as_slice(), out),
        Err(_) => Status::OutOfMemory,
    }
}

/// The lines of a sheet.
#[derive(Drop)]
struct SheetLines<'a> {
    network: &'a Network,
    weights: &'a Weights,
}

impl LineMaker<SheetLine> for SheetLines<'_> {
    ghost fit = { λ lines. IsInRange lines.network.now × AreSmall lines.weights.now };

    ghost takes = { λ lines told. IsWritable lines.network.now told };

    ghost text = { λ lines told. line_text lines.network.now lines.weights.now told };

    fn make(&self, line: &mut LineText, thing: &SheetLine) {
        make_sheet_line(line, self.network, self.weights, thing);
    }
}

/// Puts the lines of a sheet, and passes them on.
fn put_sheet<K: Sink>(
    network: &Network,
    weights: &Weights,
    sheet: &[SheetLine],
    out: &mut K,
) -> Status
    requires range { IsInRange network.now }
    requires small { AreSmall weights.now }
    requires names { All (IsWritable network.now) sheet.now }
    ensures gives { Over K.Sink out.old out.new (Gives (sheet_answer network.now weights.now sheet.now) result) }
    ensures status { IsWanted Status.Done result (PutFailed K.Sink out.old out.new) }
{
    put_lines(&SheetLines { network, weights }, sheet, out)
}
