ghost use Rattle.std.specs.Prelude.{◌≡◌, ◌<◌, ◌⊎◌, ◌↔◌, ℕ};
ghost use Rattle.sync_state.specs.membership.Members.{IsMember, count_of, single, union};

use tte_units::frames::Members;

/// The set of the one master with this member number. `member` is below 32.
pub fn one(member: u32) -> Members
    requires { member < 32 }
    ensures value { result ≡ single member }
    ensures members { (i : ℕ) → IsMember i result ↔ (i ≡ member) }
{
    Members(1 << member)
}

/// How many masters are in the set: 0 to 32.
pub fn count(members: Members) -> u32
    ensures { result ≡ count_of members }
{
    members.0.count_ones()
}

/// The masters that are in one of the two sets, or in both.
pub fn join(a: Members, b: Members) -> Members
    ensures value { result ≡ union a b }
    ensures members { (i : ℕ) → IsMember i result ↔ (IsMember i a ⊎ IsMember i b) }
{
    Members(a.0 | b.0)
}
