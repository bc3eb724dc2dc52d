ghost use Rattle.std.specs.Prelude.{IfOk};
ghost use Rattle.net_plan.specs.Ranges.{IsInRange};

use crate::networks::WORKED;
use net_file::{FileRefusal, read_network};
use net_plan::Network;
use schedule_checker::{Unfit, check};
use schedule_tables::Accepted;
use std::alloc::Global;

/// Why a text is no network.
#[derive(Debug, Drop)]
pub enum NoNetwork {
    TooLong,
    Refused(FileRefusal),
    Unfit(Unfit),
}

/// The network of this text.
pub fn network_of(alloc: Global, text: &str) -> Result<Network, NoNetwork>
    ensures { IfOk result IsInRange }
{
    if text.len() > 262_144 {
        return Err(NoNetwork::TooLong);
    }
    match read_network(alloc, text.as_bytes()) {
        Ok(network) => Ok(network),
        Err(refusal) => Err(NoNetwork::Refused(refusal)),
    }
}

/// The network of this text, as one that is accepted.
pub fn accepted_of(alloc: Global, text: &str) -> Result<Accepted, NoNetwork> {
    match check(alloc, network_of(alloc, text)?) {
        Ok(accepted) => Ok(accepted),
        Err(unfit) => Err(NoNetwork::Unfit(unfit)),
    }
}

/// The worked network, as one that is accepted.
pub fn worked(alloc: Global) -> Result<Accepted, NoNetwork> {
    accepted_of(alloc, WORKED)
}
