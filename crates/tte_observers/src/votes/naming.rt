ghost use Rattle.std.specs.Prelude.{◌≡◌, ◌<◌, length, MatchResult};
ghost use Rattle.{net_plan.specs.Ranges.IsInRange, tte_observers.specs.votes.law.Voting.{are_matches, is_match}};
ghost use Rattle.tte_observers.specs.votes.Answer.{AreNamed, IsFirstUnknown, MayThey, the_names};

use crate::votes::law::Voters;
use net_plan::{Network, VirtualLink};

/// The three virtual links that the words name, or the first place, from 1, whose word names none.
pub(crate) fn voters_named(
    network: &Network,
    first: &str,
    second: &str,
    third: &str,
) -> Result<Voters, u32>
    requires { IsInRange network.now }
    ensures { MatchResult result (AreNamed network.now (the_names first.now second.now third.now))
        (IsFirstUnknown network.now (the_names first.now second.now third.now)) }
{
    let Some(first) = network.vl_named(first) else {
        return Err(1);
    };
    let Some(second) = network.vl_named(second) else {
        return Err(2);
    };
    let Some(third) = network.vl_named(third) else {
        return Err(3);
    };
    Ok(Voters {
        first,
        second,
        third,
    })
}

/// Have the two other senders, and one length, one period and one phase?
fn is_match(a: &VirtualLink, b: &VirtualLink) -> bool
    ensures { result ≡ is_match a.now b.now }
{
    a.sender.0 != b.sender.0 && a.length == b.length && a.period == b.period && a.phase == b.phase
}

/// So has each pair of the three?
fn are_matches(a: &VirtualLink, b: &VirtualLink, c: &VirtualLink) -> bool
    ensures { result ≡ are_matches a.now b.now c.now }
{
    is_match(a, b) && is_match(a, c) && is_match(b, c)
}

/// May the three virtual links of the network vote?
pub(crate) fn may_vote(network: &Network, voters: Voters) -> bool
    requires first { voters.first.0 < length network.now.vl }
    requires second { voters.second.0 < length network.now.vl }
    requires third { voters.third.0 < length network.now.vl }
    ensures { MayThey network.now voters result }
{
    let vls = network.vl.as_slice();
    let first = &vls[voters.first.0 as usize];
    let second = &vls[voters.second.0 as usize];
    let third = &vls[voters.third.0 as usize];
    are_matches(first, second, third)
}
