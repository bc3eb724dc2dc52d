ghost use Rattle.std.specs.Prelude.{◌≡◌, ◌↔◌, List, Contains, IsTrue, length, slice_get};
ghost use Rattle.compression.specs.Clusters.{AreClusters, Cluster, Point, point_at};
ghost use Rattle.net_plan.specs.declared.network.Network as networks;
ghost use Rattle.run_law.specs.control.Collections.{IsCollectedAs, master_of, observation_window};
ghost use Rattle.audit_devices.specs.stretches.Points.{HasPoints, IsSentFor, emissions_for};

use audit_law::collections::{CollectionHistory, Emitted, Gathering};
use compression::{Compressed, Taken};
use tte_units::Units;
use tte_units::frames::Members;

/// The stretch of a compression master at a place of the order.
#[derive(Clone, Copy)]
pub struct Stretch<'a> {
    pub(crate) collections: &'a CollectionHistory,
    pub(crate) gathering: Gathering,
}

impl Stretch<'_> {
    /// What becomes of the point of a frame with this cycle and these members, behind those of the stretch.
    pub fn role(&self, point: Units, members: Members, cycle: u32) -> Taken
        ensures { (network : networks.Network) (points : List Point)
            → HasPoints network points self.now.collections.now self.now.gathering
            → IsCollectedAs network points (point_at point.0 (master_of members.0) cycle) result }
    {
        let master = members.0.trailing_zeros();
        self.collections
            .role(&self.gathering, point.0, master, cycle)
    }

    /// Whether this is what is sent for a cluster of the stretch. The stretch is that of some points.
    pub fn sends(&self, sent: &Compressed) -> bool
        requires { (network : networks.Network) × (points : List Point)
            × HasPoints network points self.now.collections.now self.now.gathering }
        ensures { (network : networks.Network) (points : List Point)
            → HasPoints network points self.now.collections.now self.now.gathering
            → IsTrue result ↔ IsSentFor network points sent.now }
    {
        self.collections.sends(&self.gathering, sent)
    }

    /// Whether this is what is emitted for a cluster of the stretch. The stretch is that of some points.
    pub fn emits(&self, emitted: &Emitted) -> bool
        requires { (network : networks.Network) × (points : List Point)
            × HasPoints network points self.now.collections.now self.now.gathering }
        ensures { (network : networks.Network) (points : List Point) (clusters : List Cluster)
            → HasPoints network points self.now.collections.now self.now.gathering
            → AreClusters (observation_window network) points clusters
            → IsTrue result ↔ Contains (emissions_for network clusters) emitted.now }
    {
        match self.collections.opened_at(&self.gathering, emitted.opened) {
            Some(found) => found == *emitted,
            None => false,
        }
    }

    /// How many clusters the stretch has.
    pub fn len(&self) -> usize
        requires { (network : networks.Network) × (points : List Point)
            × HasPoints network points self.now.collections.now self.now.gathering }
        ensures { (network : networks.Network) (points : List Point) (clusters : List Cluster)
            → HasPoints network points self.now.collections.now self.now.gathering
            → AreClusters (observation_window network) points clusters → result ≡ length clusters }
    {
        self.collections.len(&self.gathering)
    }

    /// What is sent for the cluster at a place of the order of their openings.
    pub fn emission(&self, place: usize) -> Option<Emitted>
        requires { (network : networks.Network) × (points : List Point)
            × HasPoints network points self.now.collections.now self.now.gathering }
        ensures { (network : networks.Network) (points : List Point) (clusters : List Cluster)
            → HasPoints network points self.now.collections.now self.now.gathering
            → AreClusters (observation_window network) points clusters
            → result ≡ slice_get (emissions_for network clusters) place }
    {
        self.collections.emission(&self.gathering, place)
    }
}
