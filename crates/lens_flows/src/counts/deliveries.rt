//! The deliveries of a flow.

ghost use Rattle.std.specs.Prelude.{◌≡◌, ◌<◌, ◌^◌, ◌≤◌, All, IfOk, List, filter_map};
ghost use Rattle.lens_flows.specs.counts.Deliveries.{AreDeliveries, IsBelow, IsOneMore, delivery_kept, is_channel, is_of};
ghost use Rattle.lens_flows.specs.counts.Deliveries.{is_on, one_if};
ghost use Rattle.lens_flows.specs.judge.{Courses.{IsCourse, IsFit, IsSomeCourse, scenario_of}, Flows.IsFlow};
ghost use Rattle.{net_plan.specs.declared.event.Event.Event, run_law.specs.records.Happenings.Happening};

use crate::counts::Nearest;
use crate::counts::nearest::{nearer, nearest_by, place_at};
use crate::judge::{Course, Flow};
use audit_devices::channel_of_link;
use audit_sweep::records::{Kept, KeptRecord};
use net_plan::{DeviceId, LinkId, Network, VlId};
use std::alloc::{AllocError, Global};
use tte_units::frames::Channel;

/// A delivery that a record tells.
#[derive(Clone, Copy, PartialEq, Eq)]
pub struct Delivery {
    /// The world time, in units of 2^-16 ns.
    pub time: u64,
    pub device: DeviceId,
    /// The link that the frame came by.
    pub link: LinkId,
    pub vl: VlId,
}

/// What is counted of the deliveries of a flow.
#[derive(Clone, Copy, PartialEq, Eq)]
pub struct Deliveries {
    pub total: u64,
    pub by_a: u64,
    pub by_b: u64,
    /// How near they came to the ends of their windows.
    pub nearest: Option<Nearest>,
}

/// The deliveries that the records of a report tell, by what its audit keeps of each.
///
/// Fails when memory runs out.
pub(crate) fn deliveries_in(
    alloc: Global,
    records: &[KeptRecord],
) -> Result<Vec<Delivery>, AllocError>
    ensures { IfOk result (λ deliveries. deliveries.items ≡ filter_map delivery_kept records.now) }
{
    records.iter().filter_map(delivery_kept).collect(alloc)
}

/// The delivery that the record tells, if it does.
fn delivery_kept(entry: &KeptRecord) -> Option<Delivery>
    ensures { result ≡ delivery_kept entry.now }
{
    match entry.kept {
        Kept::Delivered(device, link, vl) => Some(Delivery {
            time: entry.time,
            device,
            link,
            vl,
        }),
        Kept::On(_)
        | Kept::Send(_, _)
        | Kept::Arrived(_, _, _)
        | Kept::Permanent(_, _)
        | Kept::Compressed(_, _)
        | Kept::Sent(_)
        | Kept::Corrected(_)
        | Kept::Left(_, _)
        | Kept::TtSent(_, _)
        | Kept::Accepted(_, _, _)
        | Kept::Other => None,
    }
}

/// Counts those of the deliveries that are of the flow. Their times are at most 2^60.
pub(crate) fn count_deliveries(
    course: &Course<'_>,
    flow: &Flow,
    deliveries: &[Delivery],
) -> Deliveries
    requires fit { IsFit course.now }
    requires known { IsSomeCourse course.now }
    requires flow { IsFlow course.now.network.now flow.now }
    requires timely { All (λ d. d.time ≤ 2 ^ 60) deliveries.now }
    ensures { (befallen : List Event) (hs : List Happening) → IsCourse befallen hs course.now
        → AreDeliveries (scenario_of course.now befallen) hs deliveries.now flow.now result }
{
    let mut counted = Deliveries {
        total: 0,
        by_a: 0,
        by_b: 0,
        nearest: None,
    };
    'deliveries: for delivery in deliveries {
        if is_of(flow, delivery) {
            counted = one_more(counted, course, flow, delivery);
        }
    }
    counted
}

/// The same with one delivery more.
fn one_more(
    counted: Deliveries,
    course: &Course<'_>,
    flow: &Flow,
    delivery: &Delivery,
) -> Deliveries
    requires fit { IsFit course.now }
    requires known { IsSomeCourse course.now }
    requires flow { IsFlow course.now.network.now flow.now }
    requires few { IsBelow (2 ^ 63) counted }
    requires timely { delivery.now.time ≤ 2 ^ 60 }
    ensures { IsOneMore course.now flow.now delivery.now counted result }
{
    let place = place_at(course, flow.device, delivery.time);
    let found = nearest_by(course.network, flow, delivery.link, place);
    Deliveries {
        total: counted.total + 1,
        by_a: counted.by_a + one_if(is_on(course.network, Channel::A, delivery)),
        by_b: counted.by_b + one_if(is_on(course.network, Channel::B, delivery)),
        nearest: nearer(counted.nearest, found),
    }
}

/// One if it is so.
fn one_if(so: bool) -> u64
    ensures value { result ≡ one_if so }
    ensures most { result ≤ 1 }
{
    if so { 1 } else { 0 }
}

/// Is the delivery one of the flow?
fn is_of(flow: &Flow, delivery: &Delivery) -> bool
    ensures { result ≡ is_of flow.now delivery.now }
{
    delivery.device.0 == flow.device.0 && delivery.vl.0 == flow.vl.0
}

/// Did it come on the channel?
fn is_on(network: &Network, channel: Channel, delivery: &Delivery) -> bool
    ensures { result ≡ is_on network.now channel delivery.now }
{
    is_channel(channel, channel_of_link(network, delivery.link))
}

/// Is it the channel?
fn is_channel(channel: Channel, found: Option<Channel>) -> bool
    ensures { result ≡ is_channel channel found }
{
    match (channel, found) {
        (Channel::A, Some(Channel::A)) | (Channel::B, Some(Channel::B)) => true,
        (Channel::A, Some(Channel::B)) | (Channel::B, Some(Channel::A)) => false,
        (Channel::A, None) | (Channel::B, None) => false,
    }
}
