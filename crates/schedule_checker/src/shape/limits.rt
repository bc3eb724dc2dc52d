ghost use Rattle.std.specs.Prelude.{◌≡◌, ◌≤◌, ◌↔◌, IfNone, IfSome, IsTrue};
ghost use Rattle.{net_plan.specs.Rules.IsWithinLimits, schedule_checker.specs.Parts.part_of_limit};

use net_plan::Network;

/// The most devices of a network.
const MOST_DEVICES: usize = 64;

/// The most links of a network.
const MOST_LINKS: usize = 128;

/// The most virtual links of a network.
const MOST_VLS: usize = 64;

/// The most rows of a network.
const MOST_ROWS: usize = 1024;

/// The parts of the rule: what a network has not too many of.
#[derive(Clone, Copy, PartialEq, Eq)]
enum Limit {
    Devices,
    Links,
    VirtualLinks,
    Rows,
}

impl Limit {
    /// The part of this number.
    fn of_part(part: u32) -> Option<Limit>
        ensures none { IfNone result (4 ≤ part) }
        ensures some { IfSome result (λ limit. part ≡ part_of_limit limit) }
    {
        match part {
            0 => Some(Limit::Devices),
            1 => Some(Limit::Links),
            2 => Some(Limit::VirtualLinks),
            3 => Some(Limit::Rows),
            _ => None,
        }
    }
}

/// Does the network have few enough devices (part 0), links (1), virtual links (2) and rows (3)?
pub(crate) fn is_within_limits(network: &Network, part: u32) -> bool
    ensures { IsTrue result ↔ IsWithinLimits network.now part }
{
    match Limit::of_part(part) {
        Some(Limit::Devices) => network.device.as_slice().len() <= MOST_DEVICES,
        Some(Limit::Links) => network.link.as_slice().len() <= MOST_LINKS,
        Some(Limit::VirtualLinks) => network.vl.as_slice().len() <= MOST_VLS,
        Some(Limit::Rows) => network.row.as_slice().len() <= MOST_ROWS,
        None => true,
    }
}
