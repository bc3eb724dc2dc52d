ghost use Rattle.std.specs.Prelude.{◌++◌, ◌↔◌, ◌∷◌, ◌≡◌, ◌≤◌, List, MatchResult, OnErr, Some, [], slice_set, true};
ghost use Rattle.net_plan.specs.{Belonging.IsOfNetwork, declared.event.Event.Event as EventValue};
ghost use Rattle.net_plan.specs.declared.{ids.DeviceId.DeviceId as DeviceIdValue, network.Network.Network};
ghost use Rattle.tte_units.specs.declared.frames.channel.Channel.{Channel as ChannelValue};
ghost use Rattle.run_law.specs.scenario.{Faults.{IsBroken, IsFaulty}, Hypothesis.{IsOutsideBy, IsWithinHypothesis}};
ghost use Rattle.fault_hypothesis.specs.{Own.{behind_own, first_own}, Watching.Watches};

use crate::Outside;
use crate::places::{channel_of, off_channel};
use net_plan::{DeviceId, Event, What};
use schedule_tables::Accepted;
use tte_units::Units;
use tte_units::frames::Channel;

/// The most devices of a network that keeps the rules.
const MOST_DEVICES: usize = 64;

/// The conditions of the fault hypothesis, in the order in which they are judged.
const CONDITIONS: [Outside; 11] = [
    Outside::Order,
    Outside::Late,
    Outside::Rate,
    Outside::Wire,
    Outside::Hold,
    Outside::Channel,
    Outside::NotMaster,
    Outside::SecondBreak,
    Outside::TooFewMasters,
    Outside::NotBroken,
    Outside::NotOff,
];

/// A watch over a network. It judges events by the fault hypothesis, given those that it admitted,
/// of which it keeps only what the conditions ask for.
#[derive(Drop)]
pub struct Watch<'a> {
    pub(crate) accepted: &'a Accepted,
    // The time of the last event.
    pub(crate) last: Option<Units>,
    pub(crate) broken: Option<DeviceId>,
    pub(crate) faulty: Option<Channel>,
    // By the device's id, whether an event turned it on.
    pub(crate) turned_on: [bool; MOST_DEVICES],
}

impl<'a> Watch<'a> {
    /// A watch over a network to which nothing has happened.
    pub fn new(accepted: &'a Accepted) -> Watch<'a>
        ensures { Watches accepted.now result [] }
    {
        Watch {
            accepted,
            last: None,
            broken: None,
            faulty: off_channel(accepted.network()),
            turned_on: [false; MOST_DEVICES],
        }
    }

    /// Judges the event, given those admitted: it is within the hypothesis, or outside by the first
    /// condition that it breaks. The event's device and link are the network's.
    pub fn judge(&self, event: &Event) -> Result<(), Outside>
        ensures { (network : Network) (admitted : List EventValue)
            → Watches network self.now admitted → IsOfNetwork network event.now.what
            → MatchResult result
            (λ _. IsWithinHypothesis network admitted event.now)
            (λ condition. IsOutsideBy network admitted event.now condition) }
    {
        if self.violates(event, Outside::Order) {
            return Err(Outside::Order);
        }
        if self.violates(event, Outside::Late) {
            return Err(Outside::Late);
        }
        let Own { first, behind } = own_of(&event.what);
        let mut place = first;
        'conditions: while place < behind {
            let condition = CONDITIONS[place];
            if self.violates(event, condition) {
                return Err(condition);
            }
            place += 1;
        }
        Ok(())
    }

    /// Admits the event where it is within the hypothesis, given those admitted before. Where it is
    /// outside, it is refused by the first condition that it breaks, and nothing changes. The
    /// event's device and link are the network's.
    pub fn admit(&mut self, event: &Event) -> Result<(), Outside>
        ensures judged { (network : Network) (admitted : List EventValue)
            → Watches network self.old admitted → IsOfNetwork network event.now.what
            → MatchResult result
            (λ _. IsWithinHypothesis network admitted event.now × Watches network self.new (admitted ++ event.now ∷ []))
            (λ condition. IsOutsideBy network admitted event.now condition) }
        ensures unchanged { OnErr result (self.new ≡ self.old) }
    {
        self.judge(event)?;
        self.keep(event);
        Ok(())
    }

    /// Admits an event that is within the hypothesis, given those admitted before. It is not judged again.
    pub fn keep(&mut self, event: &Event)
        ensures { (network : Network) (admitted : List EventValue)
            → Watches network self.old admitted → IsOfNetwork network event.now.what
            → IsWithinHypothesis network admitted event.now
            → Watches network self.new (admitted ++ event.now ∷ []) }
    {
        let network = self.accepted.network();
        self.last = Some(event.time);
        match &event.what {
            What::Cut(link, _) => {
                if self.faulty.is_none() {
                    self.faulty = channel_of(network, *link);
                }
            }
            What::On(device) => turn_on(&mut self.turned_on, *device),
            What::Break(device) => self.broken = Some(*device),
            _ => {}
        }
    }

    /// The broken device, a master. It is None exactly where none is broken.
    pub fn broken(&self) -> Option<DeviceId>
        ensures { (network : Network) (admitted : List EventValue)
            → Watches network self.now admitted
            → (device : DeviceIdValue) → (result ≡ Some device) ↔ IsBroken admitted device }
    {
        self.broken
    }

    /// The faulty channel. It is None exactly where no channel is faulty yet.
    pub fn faulty(&self) -> Option<Channel>
        ensures { (network : Network) (admitted : List EventValue)
            → Watches network self.now admitted
            → (channel : ChannelValue) → (result ≡ Some channel) ↔ IsFaulty network admitted channel }
    {
        self.faulty
    }
}

// The places of the conditions that only events of one kind can break.
struct Own {
    first: usize,
    behind: usize,
}

// The conditions that only such an event can break. They stand one behind the other.
fn own_of(what: &What) -> Own
    ensures first { result.first ≡ first_own what.now }
    ensures behind { result.behind ≡ behind_own what.now }
    ensures least { 2 ≤ result.first }
    ensures most { result.behind ≤ 11 }
{
    match what {
        What::Rate(_, _) => Own {
            first: 2,
            behind: 3,
        },
        What::Wire(_, _, _) => Own {
            first: 3,
            behind: 4,
        },
        What::Hold(_, _, _) => Own {
            first: 4,
            behind: 5,
        },
        What::Cut(_, _) => Own {
            first: 5,
            behind: 6,
        },
        What::Break(_) => Own {
            first: 6,
            behind: 9,
        },
        What::Send(_, _) => Own {
            first: 9,
            behind: 10,
        },
        What::On(_) => Own {
            first: 10,
            behind: 11,
        },
        What::Heal(_, _) | What::End => Own {
            first: 11,
            behind: 11,
        },
    }
}

// Marks the device as turned on.
fn turn_on(turned_on: &mut [bool; MOST_DEVICES], device: DeviceId)
    ensures { turned_on.new ≡ slice_set turned_on.old device.0 true }
{
    let place = device.0 as usize;
    if place < MOST_DEVICES {
        turned_on[place] = true;
    }
}
