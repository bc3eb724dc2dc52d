ghost use Rattle.sync_state.specs.membership.Laws.{CountIsOfMembers, OneMoreMember, SummaryIsOne};

/// The count of a set is how many member numbers are in it.
pub fn count_is_of_members()
    ensures { CountIsOfMembers }
{}

/// A set has one master more, once one that is not in it joins it.
pub fn one_more_member()
    ensures { OneMoreMember }
{}

/// What is kept of a list of frames is determined by the list.
pub fn summary_is_one()
    ensures { SummaryIsOne }
{}
