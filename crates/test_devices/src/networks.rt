ghost use Rattle.net_plan.specs.Ranges.{IsInRange};

use net_plan::{DeviceId, Event, LinkId, Network, Octets, What};
use std::process::Abort;
use std::test::Fail;
use tte_units::Units;
use worked_network::{network_of, numbers};

fn sent(octets: Octets) -> Event {
    Event {
        time: Units(1),
        what: What::Send(LinkId(0), octets),
    }
}

#[test]
fn octets_are_kept_and_compared(rt: HostRuntime) {
    let mut frame = [7; 60];
    let octets = Octets::new(&frame);
    assert!(rt; octets.as_slice() == &frame[..]);
    let copy = octets.clone().expect(&rt, "memory");
    assert!(rt; copy == octets);
    frame[59] = 8;
    assert!(rt; sent(octets) == sent(copy));
    assert!(rt; sent(Octets::new(&[7; 60])) != sent(Octets::new(&frame)));
    assert!(rt; Octets::new(&[1; 1514]).as_slice() == &[1; 1514][..]);
}

const TWO_OF_A_NAME: &str = "device = [
 {name=\"ca\", role=\"cm\", mac=\"020000000022\", channel=\"a\"},
 {name=\"cb\", role=\"cm\", mac=\"020000000022\", channel=\"a\"},
 {name=\"cb\", role=\"cm\", mac=\"020000000022\", channel=\"a\"},
]
";

fn has_named(rt: &impl Abort, network: &Network, name: &str, device: Option<DeviceId>)
    requires { IsInRange network.now }
{
    assert!(rt; network.device_named(name) == device);
}

#[test]
fn the_first_bearer_of_a_name_is_found(rt: HostRuntime) -> Result<(), Fail> {
    let text = format!(in rt.alloc(); "{}{TWO_OF_A_NAME}", numbers())?;
    let network = network_of(rt.alloc(), text.as_str())?;
    has_named(&rt, &network, "ca", Some(DeviceId(0)));
    has_named(&rt, &network, "cb", Some(DeviceId(1)));
    has_named(&rt, &network, "c", None);
    assert!(rt; network.link_named("ca") == None && network.vl_named("ca") == None);
    Ok(())
}
