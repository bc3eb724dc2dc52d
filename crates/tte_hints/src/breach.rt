//! How events are outside the fault hypothesis, by what they are themselves.

use crate::naming::{device_text, link_at, text_of};
use crate::saying::Hole::{Number, Text};
use crate::saying::filled;
use net_plan::{DeviceId, LinkId, Network};
use std::alloc::Global;
use tte_units::{Ppb, Units};

/// The most cycles of a run.
const MOST_CYCLES: i64 = 1 << 20;

pub(crate) fn late(alloc: Global, network: &Network, time: Units) -> Option<String> {
    let end = network.cycle.0.saturating_mul(MOST_CYCLES);
    filled(
        alloc,
        "it comes at {}; a run ends at {}, after 2^20 cycles",
        &[Number(time.0), Number(end)],
    )
}

pub(crate) fn rate(
    alloc: Global,
    network: &Network,
    device: DeviceId,
    rate: Ppb,
) -> Option<String> {
    let device = device_text(network, device);
    filled(
        alloc,
        "it sets the rate of {} to {}; the network's rho is {}",
        &[
            Text(device),
            Number(rate.0.into()),
            Number(network.rho.into()),
        ],
    )
}

pub(crate) fn wire(alloc: Global, network: &Network, link: LinkId, delay: Units) -> Option<String> {
    let found = link_at(network, link)?;
    let least = found.wire.0;
    let most = least.saturating_add(found.jitter.0);
    filled(
        alloc,
        "it sets the wire delay of {} to {}; the link has from {} to {}, its wire and jitter",
        &[
            Text(text_of(&found.name)),
            Number(delay.0),
            Number(least),
            Number(most),
        ],
    )
}

pub(crate) fn hold(alloc: Global, network: &Network, link: LinkId, delay: Units) -> Option<String> {
    let found = link_at(network, link)?;
    filled(
        alloc,
        "it sets the hold of {} to {}; the link has at most {}",
        &[
            Text(text_of(&found.name)),
            Number(delay.0),
            Number(found.hold.0),
        ],
    )
}

pub(crate) fn not_master(alloc: Global, network: &Network, device: DeviceId) -> Option<String> {
    let device = device_text(network, device);
    filled(
        alloc,
        "it breaks {}; only a master may break",
        &[Text(device)],
    )
}

pub(crate) fn not_broken(alloc: Global, network: &Network, link: LinkId) -> Option<String> {
    let found = link_at(network, link)?;
    let child = device_text(network, found.child);
    filled(
        alloc,
        "it sends on {}; the link's child, {}, is not broken",
        &[Text(text_of(&found.name)), Text(child)],
    )
}
