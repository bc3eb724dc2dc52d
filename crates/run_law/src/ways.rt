//! The ways of links.
ghost use Rattle.std.specs.Prelude.{◌≡◌};
ghost use Rattle.run_law.specs.scenario.Ways.{is_way, is_way_of};

use net_plan::{LinkId, Way};

/// Are the two ways one?
pub fn is_way(way: Way, other: Way) -> bool
    ensures { result ≡ is_way way other }
{
    match (way, other) {
        (Way::Up, Way::Up) | (Way::Down, Way::Down) => true,
        (Way::Up, Way::Down) | (Way::Down, Way::Up) => false,
    }
}

/// Is this way of this link the other one?
pub fn is_way_of(link: LinkId, way: Way, other: LinkId, turned: Way) -> bool
    ensures { result ≡ is_way_of link way other turned }
{
    link.0 == other.0 && is_way(way, turned)
}
