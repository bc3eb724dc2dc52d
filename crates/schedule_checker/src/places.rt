ghost use Rattle.std.specs.Prelude.{◌≡◌};
ghost use Rattle.{net_plan.specs.Ranges.IsInRange, schedule_checker.specs.Judging.places_of};

use net_plan::Network;
use schedule_tables::Rule;

/// At how many places the rule is judged, from place 0 on.
pub(crate) fn places_of(rule: Rule, network: &Network) -> u32
    requires { IsInRange network.now }
    ensures { result ≡ places_of rule network.now }
{
    match rule {
        Rule::Limits => 4,
        Rule::CompressionMasters => 2,
        Rule::Masters => 6,
        Rule::Settling | Rule::Precision | Rule::Correction | Rule::ScheduleStart => 1,
        Rule::DevicesDiffer | Rule::Connections | Rule::Delays | Rule::RowsOfDevice => {
            network.device.as_slice().len() as u32
        }
        Rule::LinksDiffer | Rule::Joints => network.link.as_slice().len() as u32,
        Rule::VlNamesDiffer
        | Rule::VlIdsDiffer
        | Rule::Periods
        | Rule::Senders
        | Rule::BothChannels => network.vl.as_slice().len() as u32,
        Rule::WindowEnds
        | Rule::LinksOnce
        | Rule::Sources
        | Rule::Targets
        | Rule::Spacing
        | Rule::Forwarding => network.row.as_slice().len() as u32,
    }
}
