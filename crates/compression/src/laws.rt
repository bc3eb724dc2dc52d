ghost use Rattle.compression.specs.{Middle.{MiddleAmongOthers, MiddleFromFirstToLast}, Stands.EmittedInOrder};
ghost use Rattle.compression.specs.{OneCluster.{OneCluster, OneListOfClusters, OneTime}, Room.RoomForEachMaster};

/// The middle of three or more sorted points, of which one may be anywhere, lies among the others.
pub fn middle_law()
    ensures among { MiddleAmongOthers }
    ensures within { MiddleFromFirstToLast }
{}

/// Each list of points has one list of clusters. Each point lies in the time of exactly one of them.
/// Of n masters' points, a cluster that has none of one of them has fewer than n.
pub fn clusters_law()
    ensures clusters { OneListOfClusters }
    ensures time { OneTime }
    ensures room { RoomForEachMaster }
{}

/// A collector has emitted the first clusters of the points that it was given, and keeps the others.
/// No later point changes one that is emitted.
pub fn emission_law()
    ensures { EmittedInOrder }
{}

/// One master's points, wherever they are, do not split those of the others: where the points of
/// one cycle and of the other masters lie within one observation window, they stand in one cluster.
pub fn one_cluster_law()
    ensures { OneCluster }
{}
