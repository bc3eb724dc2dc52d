use crate::hinting::Called;
use crate::naming::{device_text, text_of};
use crate::saying::Hole::{Count, Text};
use crate::saying::filled;
use net_plan::{Network, VirtualLink};
use std::alloc::Global;
use tte_forms::{Words, read_unjudged};
use tte_io::Source;

/// The first number in which two virtual links must agree and do not: its key, and what each has.
fn other_number(one: &VirtualLink, two: &VirtualLink) -> Option<(&'static str, u32, u32)> {
    if one.length != two.length {
        Some(("length", one.length.into(), two.length.into()))
    } else if one.period != two.period {
        Some(("period", one.period, two.period))
    } else if one.phase != two.phase {
        Some(("phase", one.phase, two.phase))
    } else {
        None
    }
}

/// Whether two virtual links can't be voted on.
fn are_at_odds(one: &VirtualLink, two: &VirtualLink) -> bool {
    one.sender == two.sender || other_number(one, two).is_some()
}

/// Why two virtual links of a network can't be voted on.
fn fault_of<'n>(
    alloc: Global,
    network: &'n Network,
    one: &'n VirtualLink,
    two: &'n VirtualLink,
) -> Option<String> {
    let (of_one, of_two) = (Text(text_of(&one.name)), Text(text_of(&two.name)));
    if one.sender == two.sender {
        let sender = Text(device_text(network, one.sender));
        return filled(
            alloc,
            "{} and {} have one sender, {}",
            &[of_one, of_two, sender],
        );
    }
    let (key, first, second) = other_number(one, two)?;
    filled(
        alloc,
        "the {} of {} is {}, and that of {} is {}",
        &[
            Text(key),
            of_one,
            Count(first.into()),
            of_two,
            Count(second.into()),
        ],
    )
}

/// The virtual link of a network that an argument names.
fn named<'n>(network: &'n Network, name: &str) -> Option<&'n VirtualLink> {
    for vl in network.vl.as_slice() {
        if vl.name.is(name) {
            return Some(vl);
        }
    }
    None
}

/// Why three virtual links of a network can't be voted on.
fn fault_among<'n>(
    alloc: Global,
    network: &'n Network,
    one: &'n VirtualLink,
    two: &'n VirtualLink,
    three: &'n VirtualLink,
) -> Option<String> {
    if are_at_odds(one, two) {
        fault_of(alloc, network, one, two)
    } else if are_at_odds(one, three) {
        fault_of(alloc, network, one, three)
    } else {
        fault_of(alloc, network, two, three)
    }
}

/// Why the three virtual links that are named can't be voted on.
fn fault_of_named(alloc: Global, network: &Network, words: &Words) -> Option<String> {
    let one = named(network, words.get(3)?)?;
    let two = named(network, words.get(4)?)?;
    let three = named(network, words.get(5)?)?;
    fault_among(alloc, network, one, two, three)
}

/// Why the three virtual links of a call can't be voted on.
pub(crate) fn refused_vote<A: Source>(
    alloc: Global,
    called: Called<'_>,
    first: &mut A,
) -> Option<String> {
    let network = read_unjudged(alloc, first).ok()?;
    fault_of_named(alloc, &network, called.words)
}
