//! What is told of each flow.

ghost use Rattle.std.specs.Prelude.{◌≡◌, ◌^◌, ◌≤◌, All, IfOk, List};
ghost use Rattle.{lens_flows.specs.counts.Told.{AreToldOf, IsTold}, run_law.specs.records.Happenings.Happening};
ghost use Rattle.lens_flows.specs.judge.{Courses.{IsCourse, IsFit, IsSomeCourse, scenario_of}, Flows.IsFlow};
ghost use Rattle.net_plan.specs.declared.event.Event.{Event};

use crate::counts::counting::count_cycles;
use crate::counts::deliveries::count_deliveries;
use crate::counts::{Deliveries, Delivery, FateCounts};
use crate::judge::{Course, Flow};
use std::alloc::{AllocError, Global};

/// What is told of a flow.
#[derive(Clone, Copy, PartialEq, Eq)]
pub struct FlowTold {
    pub flow: Flow,
    pub fates: FateCounts,
    /// In how many of its cycles delivery is owed by events alone: its sender and its receiver were on three cycles
    /// before.
    pub certain: u64,
    pub deliveries: Deliveries,
}

/// Tells of each of the flows, in a run with these deliveries, whose times are at most 2^60.
///
/// Fails when memory runs out.
pub fn tell_all(
    alloc: Global,
    course: &Course<'_>,
    flows: &[Flow],
    deliveries: &[Delivery],
) -> Result<Vec<FlowTold>, AllocError>
    requires fit { IsFit course.now }
    requires known { IsSomeCourse course.now }
    requires flows { All (IsFlow course.now.network.now) flows.now }
    requires timely { All (λ d. d.time ≤ 2 ^ 60) deliveries.now }
    ensures { IfOk result (λ told. (befallen : List Event) (hs : List Happening) → IsCourse befallen hs course.now
        → AreToldOf (scenario_of course.now befallen) hs course.now.until deliveries.now flows.now told.items) }
{
    let mut told = Vec::new(alloc);
    'flows: for flow in flows {
        told.push(tell(course, flow, deliveries))?;
    }
    Ok(told)
}

/// Tells of the flow.
fn tell(course: &Course<'_>, flow: &Flow, deliveries: &[Delivery]) -> FlowTold
    requires fit { IsFit course.now }
    requires known { IsSomeCourse course.now }
    requires flow { IsFlow course.now.network.now flow.now }
    requires timely { All (λ d. d.time ≤ 2 ^ 60) deliveries.now }
    ensures flow { result.flow ≡ flow.now }
    ensures told { (befallen : List Event) (hs : List Happening) → IsCourse befallen hs course.now
        → IsTold (scenario_of course.now befallen) hs course.now.until deliveries.now result }
{
    let cycles = count_cycles(course, flow);
    FlowTold {
        flow: *flow,
        fates: cycles.fates,
        certain: cycles.certain,
        deliveries: count_deliveries(course, flow, deliveries),
    }
}
