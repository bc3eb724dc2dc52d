use crate::Program;
use crate::argument::ArgumentKind;
use crate::hinting::Called;
use crate::naming::text_of;
use crate::saying::Hole::Text;
use crate::saying::filled;
use net_plan::{Device, Link, Name, Network, VirtualLink};
use std::alloc::Global;
use tte_forms::read_unjudged;
use tte_io::Source;

/// Adds a name to a list of names, with a space before it. None where memory runs out.
fn push(names: &mut String, name: &Name) -> Option<()> {
    names.push_str(" ").ok()?;
    names.push_str(text_of(name)).ok()
}

/// The names of links, each with a space before it.
fn names_of_links(alloc: Global, links: &[Link]) -> Option<String> {
    let mut names = String::new(alloc);
    for link in links {
        push(&mut names, &link.name)?;
    }
    Some(names)
}

/// The names of virtual links, each with a space before it.
fn names_of_vls(alloc: Global, vls: &[VirtualLink]) -> Option<String> {
    let mut names = String::new(alloc);
    for vl in vls {
        push(&mut names, &vl.name)?;
    }
    Some(names)
}

/// The names of devices, each with a space before it.
fn names_of_devices(alloc: Global, devices: &[Device]) -> Option<String> {
    let mut names = String::new(alloc);
    for device in devices {
        push(&mut names, &device.name)?;
    }
    Some(names)
}

/// That a network has nothing of a name that may be a virtual link's or a device's.
fn no_thing(alloc: Global, path: &str, network: &Network, name: &str) -> Option<String> {
    let vls = names_of_vls(alloc, network.vl.as_slice())?;
    let devices = names_of_devices(alloc, network.device.as_slice())?;
    let fault = format!(in alloc; "{path} has no virtual link and no device {name:?}").ok()?;
    filled(
        alloc,
        "{}; its virtual links are{}, and its devices{}",
        &[
            Text(fault.as_str()),
            Text(vls.as_str()),
            Text(devices.as_str()),
        ],
    )
}

/// That a network has no link of a name.
fn no_link(alloc: Global, path: &str, network: &Network, link: &str) -> Option<String> {
    let names = names_of_links(alloc, network.link.as_slice())?;
    format!(in alloc; "{path} has no link {link:?}; its links are{names}").ok()
}

/// Whether a network has a virtual link of a name.
fn has_vl(network: &Network, name: &str) -> bool {
    for vl in network.vl.as_slice() {
        if vl.name.is(name) {
            return true;
        }
    }
    false
}

/// That a network has no virtual link of a name.
fn no_vl(alloc: Global, path: &str, network: &Network, vl: &str) -> Option<String> {
    let names = names_of_vls(alloc, network.vl.as_slice())?;
    format!(in alloc; "{path} has no virtual link {vl:?}; its virtual links are{names}").ok()
}

/// Which of the names of a call the network does not have, and which it has.
fn unknown_in(alloc: Global, called: Called<'_>, network: &Network) -> Option<String> {
    let path = called.first_path();
    let words = called.words;
    if matches!(called.program, Program::Lens) {
        let name = words.get(words.len().saturating_sub(1))?;
        return no_thing(alloc, path, network, name);
    }
    if matches!(called.argument(2), Some(ArgumentKind::Link)) {
        return no_link(alloc, path, network, words.get(3)?);
    }
    for place in 3..6 {
        let name = words.get(place)?;
        if !has_vl(network, name) {
            return no_vl(alloc, path, network, name);
        }
    }
    None
}

/// Which of the names of a call its network does not have, and which it has.
pub(crate) fn unknown_name<A: Source>(
    alloc: Global,
    called: Called<'_>,
    first: &mut A,
) -> Option<String> {
    let network = read_unjudged(alloc, first).ok()?;
    unknown_in(alloc, called, &network)
}
