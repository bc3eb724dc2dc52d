ghost use Rattle.std.specs.Prelude.{◌<◌, ◌^◌, All};
ghost use Rattle.tte_traces.specs.storms.Laws.{FitsFrames, StormAnswersExist};

use net_plan::{Device, Network};
use tte_units::frames::Mac;

/// For each accepted network, each seed and up to 100,000 cycles there is an answer of `storm`.
pub fn storm_answers_exist()
    ensures { StormAnswersExist }
{}

/// What a control frame has of the network fits its octets there, since the network is one of a program.
pub fn frames_fit(network: &Network)
    ensures { FitsFrames network.now }
{
    address_fits(network.pcf_destination);
    octet_fits(network.priority);
    octet_fits(network.domain);
    addresses_fit(network.device.as_slice());
}

/// A number of one octet fits it.
fn octet_fits(number: u8)
    ensures { number < 256 }
{}

/// An address fits six octets.
fn address_fits(address: Mac)
    ensures { address < 2 ^ 48 }
{
    let _number = address.number();
}

/// The addresses of the devices fit six octets.
fn addresses_fit(devices: &[Device])
    ensures { All (λ d. d.mac < 2 ^ 48) devices.now }
{
    'devices: for device in devices {
        address_fits(device.mac);
    }
}
