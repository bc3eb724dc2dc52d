ghost use Rattle.lens_why.specs.Collections.{LastIsOfClusters, MiddlesAreOfClusters};
ghost use Rattle.lens_why.specs.Decisions.{GroundsDecide};
ghost use Rattle.lens_why.specs.Laws.{BestAreThere, NamesEarlier, RowIsOne, TakenInWindows, WhyLaw};

/// Of each report `why` has one answer for each number; the chains that it tells are whole and go back, and that of a
/// frame that was delivered begins with its dispatch by its sender, or with the event by which a broken master sent it
/// on its link.
pub fn why_law()
    ensures { WhyLaw }
{}

/// In a network that keeps the rules a virtual link goes by a link by one row.
pub fn row_law()
    ensures { RowIsOne }
{}

/// Of points in their order the last collection is the last of their clusters.
pub fn collections_law()
    ensures { LastIsOfClusters }
{}

/// The middle that is told of a frame that a compression master sends is that of the points of a cluster of its
/// stretch.
pub fn middles_law()
    ensures { MiddlesAreOfClusters }
{}

/// Where a frame is taken the position that is told lies in the window that is told.
pub fn windows_law()
    ensures { TakenInWindows }
{}

/// Each record that the ground of a record names stands earlier in the report; where none is found the ground has 0.
pub fn names_law()
    ensures { NamesEarlier }
{}

/// Each record that the ground of a correction or of a clique names is there, and stands earlier in the report.
pub fn best_law()
    ensures { BestAreThere }
{}

/// A record is so by what its ground tells: a correction by what the channels say, a clique by how many masters they
/// told, a permanence by the schedule or by the last collection, a frame that leaves by what was measured of its hold,
/// one that is lost by the event that cut its way, and one that is dropped by where it came.
pub fn decisions_law()
    ensures { GroundsDecide }
{}
