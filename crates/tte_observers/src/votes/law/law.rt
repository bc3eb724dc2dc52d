ghost use Rattle.tte_observers.specs.votes.law.Outvoting.{TwoOutvoteTheThird};

/// Two of three outvote the third, as a law: where the frames of two of the three virtual links in a cycle are owed to
/// a device, the vote there is the payload that a correct sender makes, whatever the third sender does. So all such
/// devices have one vote.
pub fn two_outvote_the_third()
    ensures { TwoOutvoteTheThird }
{}
