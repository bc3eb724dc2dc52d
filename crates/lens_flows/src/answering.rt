ghost use Rattle.std.specs.Prelude.{All};
ghost use Rattle.lens_flows.specs.{Answer.{IsFlowsAnswer, told_answer}, Lines.flow_line, Writing.IsWritable};
ghost use Rattle.{net_plan.specs.Ranges.IsInRange, tte_forms.specs.Faults.{IsWanted, PutFailed}};
ghost use Rattle.{tte_forms.specs.{Answering.Gives, Putting.Over}, tte_reports.specs.Answer.IsAuditStatus};

use crate::counts::FlowTold;
use crate::lines::make_flow_line;
use crate::seeing::flows_told;
use crate::sums::make_sum_line;
use net_plan::Network;
use std::alloc::Global;
use tte_forms::{LineMaker, Status, put_each, put_last};
use tte_io::{LineText, Sink};
use tte_reports::{AuditedReport, ReportCommand};

/// Tells of each flow of the network what the report shows: in how many cycles delivery is owed, how many frames are
/// delivered and on which channel, how many are missing, in how many cycles none is owed and by which premise, and how
/// near deliveries came to the ends of their windows; and then the sums over all flows. `flows_law` says that none is
/// missing.
pub struct Flows;

impl<K: Sink> ReportCommand<K> for Flows {
    ghost answers = { λ command network notes end answer. IsFlowsAnswer network notes end answer };

    ghost ends = { λ command status. IsAuditStatus status };

    ghost audits = { λ command status is. is };

    fn put(&self, alloc: Global, network: &Network, report: &AuditedReport, out: &mut K) -> Status {
        match flows_told(alloc, network, report) {
            Ok(told) => put_told(network, told.as_slice(), out),
            Err(_) => Status::OutOfMemory,
        }
    }
}

/// The lines of flows that miss nothing.
#[derive(Drop)]
struct FlowLines<'a> {
    network: &'a Network,
}

impl LineMaker<FlowTold> for FlowLines<'_> {
    ghost fit = { λ lines. IsInRange lines.network.now };

    ghost takes = { λ lines told. IsWritable lines.network.now told };

    ghost text = { λ lines told. flow_line lines.network.now told 0 };

    fn make(&self, line: &mut LineText, thing: &FlowTold) {
        make_flow_line(line, self.network, thing, 0);
    }
}

/// Puts the lines of what was told and of the sums, and passes them on.
fn put_told<K: Sink>(network: &Network, told: &[FlowTold], out: &mut K) -> Status
    requires range { IsInRange network.now }
    requires writable { All (IsWritable network.now) told.now }
    ensures gives { Over K.Sink out.old out.new (Gives (told_answer network.now told.now) result) }
    ensures status { IsWanted Status.Done result (PutFailed K.Sink out.old out.new) }
{
    match put_each(&FlowLines { network }, told, out) {
        Ok(()) => (),
        Err(_) => return Status::WriteFault,
    }
    let mut line = LineText::new();
    make_sum_line(&mut line, told, 0);
    put_last(line.as_slice(), Status::Done, out)
}
