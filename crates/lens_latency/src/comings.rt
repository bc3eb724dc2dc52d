//! All virtual links with their receivers.
ghost use Rattle.std.specs.Prelude.{◌++◌, ◌↔◌, ◌≡◌, All, IfOk, IsTrue, OnOk};
ghost use Rattle.lens_latency.specs.Comings.{AreComings, HasNames, IsComing, IsPartOf, Pushes, some_coming};
ghost use Rattle.net_plan.specs.{Belonging.HasVl, Places.IsEndSystem, Ranges.IsInRange};

use crate::Trip;
use crate::trips::trip_on;
use net_plan::{DeviceId, Network, VlId};
use std::alloc::Global;
use tte_io::OutOfMemory;
use tte_units::frames::Channel;

/// How the frames of a virtual link come to a receiver by each channel.
#[derive(Clone, Copy)]
pub struct Coming {
    pub vl: VlId,
    pub device: DeviceId,
    pub a: Trip,
    pub b: Trip,
}

/// Is the device an end system?
pub fn is_end_system(network: &Network, device: DeviceId) -> bool
    ensures { IsTrue result ↔ IsEndSystem network.now device }
{
    match network.device.as_slice().get(device.0 as usize) {
        Some(found) => found.role.is_end_system(),
        None => false,
    }
}

/// How the frames of the virtual link come to the device, if it is an end system and rows lead there on both channels.
fn coming_of(network: &Network, vl: VlId, device: DeviceId) -> Option<Coming>
    requires { IsInRange network.now }
    ensures { IsComing network.now vl device result }
{
    if !is_end_system(network, device) {
        return None;
    }
    let Some(a) = trip_on(network, vl, device, Channel::A) else {
        return None;
    };
    let Some(b) = trip_on(network, vl, device, Channel::B) else {
        return None;
    };
    Some(Coming { vl, device, a, b })
}

/// Adds the coming, if there is one.
fn push_some(comings: &mut Vec<Coming>, coming: Option<Coming>) -> Result<(), OutOfMemory>
    ensures { OnOk result (comings.new.items ≡ comings.old.items ++ some_coming coming) }
{
    let Some(coming) = coming else {
        return Ok(());
    };
    match comings.push(coming) {
        Ok(()) => Ok(()),
        Err(_) => Err(OutOfMemory),
    }
}

/// Adds the comings of the virtual link, in the order of the devices.
fn push_comings(network: &Network, vl: VlId, comings: &mut Vec<Coming>) -> Result<(), OutOfMemory>
    requires { IsInRange network.now }
    ensures { OnOk result (Pushes (IsPartOf network.now vl.0) comings.old.items comings.new.items) }
{
    let devices = network.device.as_slice().len() as u32;
    'devices: for place in 0..devices {
        match push_some(comings, coming_of(network, vl, DeviceId(place))) {
            Ok(()) => (),
            Err(OutOfMemory) => return Err(OutOfMemory),
        }
    }
    Ok(())
}

/// How the frames of the virtual link come to each of its receivers, in the order of the devices.
pub fn comings_by(alloc: Global, network: &Network, vl: VlId) -> Result<Vec<Coming>, OutOfMemory>
    requires range { IsInRange network.now }
    requires vl { HasVl network.now vl }
    ensures are { IfOk result (λ comings. IsPartOf network.now vl.0 comings.items) }
    ensures names { IfOk result (λ comings. All (HasNames network.now) comings.items) }
{
    let mut comings = Vec::new(alloc);
    push_comings(network, vl, &mut comings)?;
    Ok(comings)
}

/// The comings of each virtual link, in their order.
pub(crate) fn comings_of(alloc: Global, network: &Network) -> Result<Vec<Coming>, OutOfMemory>
    requires { IsInRange network.now }
    ensures are { IfOk result (λ comings. AreComings network.now comings.items) }
    ensures names { IfOk result (λ comings. All (HasNames network.now) comings.items) }
{
    let mut comings = Vec::new(alloc);
    let vls = network.vl.as_slice().len() as u32;
    'vls: for place in 0..vls {
        match push_comings(network, VlId(place), &mut comings) {
            Ok(()) => (),
            Err(OutOfMemory) => return Err(OutOfMemory),
        }
    }
    Ok(comings)
}
