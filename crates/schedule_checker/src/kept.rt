ghost use Rattle.std.specs.Prelude.{◌<◌, ◌↔◌, IsTrue};
ghost use Rattle.{net_plan.specs.Ranges.IsInRange, schedule_tables.specs.Rules.IsKeptAt};
ghost use Rattle.schedule_checker.specs.Judging.{IsPlan, places_of, plan_rule, shape_rule};

use crate::both_channels::goes_by_both_channels;
use crate::judge::Plan;
use crate::parts::{PlanRule, ShapeRule};
use crate::ports::{comes_in_time, has_few_rows, stands_apart};
use crate::routes::{enters_anew, goes_once_by_link, has_source};
use crate::shape::{
    device_is_new, has_one_cm, is_connected, is_within_limits, joins_child_to_switch, link_is_new,
    masters_suffice,
};
use crate::timing::{
    correction_fits, delays_fit, ends_in_cycle, errors_settle, precision_fits, schedule_fits,
};
use crate::virtual_links::{has_end_system_as_sender, has_period, vl_id_is_new, vl_name_is_new};
use net_plan::Network;

/// Does the network keep the rule of its shape at the place?
pub(crate) fn keeps_shape_rule(rule: ShapeRule, network: &Network, place: u32) -> bool
    requires range { IsInRange network.now }
    requires place { place < places_of (shape_rule rule) network.now }
    ensures { IsTrue result ↔ IsKeptAt (shape_rule rule) network.now place }
{
    match rule {
        ShapeRule::Limits => is_within_limits(network, place),
        ShapeRule::DevicesDiffer => device_is_new(network, place),
        ShapeRule::LinksDiffer => link_is_new(network, place),
        ShapeRule::CompressionMasters => has_one_cm(network, place),
        ShapeRule::Joints => joins_child_to_switch(network, place),
        ShapeRule::Connections => is_connected(network, place),
        ShapeRule::Masters => masters_suffice(network, place),
    }
}

/// Does the network keep the rule, which is none of its shape, at the place?
pub(crate) fn keeps_plan_rule(rule: PlanRule, plan: &Plan<'_>, place: u32) -> bool
    requires plan { IsPlan plan.now }
    requires place { place < places_of (plan_rule rule) plan.now.network.now }
    ensures { IsTrue result ↔ IsKeptAt (plan_rule rule) plan.now.network.now place }
{
    let Plan {
        network,
        entries,
        groups,
        beta,
    } = *plan;
    match rule {
        PlanRule::Delays => delays_fit(network, beta, place),
        PlanRule::Settling => errors_settle(network, beta),
        PlanRule::Precision => precision_fits(network, beta),
        PlanRule::Correction => correction_fits(network),
        PlanRule::ScheduleStart => schedule_fits(network),
        PlanRule::WindowEnds => ends_in_cycle(network, entries, place),
        PlanRule::VlNamesDiffer => vl_name_is_new(network, place),
        PlanRule::VlIdsDiffer => vl_id_is_new(network, place),
        PlanRule::Periods => has_period(network, place),
        PlanRule::Senders => has_end_system_as_sender(network, place),
        PlanRule::LinksOnce => goes_once_by_link(network, entries, groups, place),
        PlanRule::Sources => has_source(network, entries, groups, place),
        PlanRule::Targets => enters_anew(network, entries, groups, place),
        PlanRule::Spacing => stands_apart(network, entries, groups, place),
        PlanRule::BothChannels => goes_by_both_channels(network, entries, groups, place),
        PlanRule::Forwarding => comes_in_time(network, entries, groups, place),
        PlanRule::RowsOfDevice => has_few_rows(network, entries, place),
    }
}
