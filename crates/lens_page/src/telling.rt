//! The text that tells of a network.

ghost use Rattle.std.specs.{List.concat, Prelude.{◌++◌, ◌≡◌, ◌≤ℤ◌, ◌≤◌, IfOk, OnOk, length, map, pos}};
ghost use Rattle.lens_page.specs.Lines.{device_line, link_line, network_text, number_line, vl_line};
ghost use Rattle.net_plan.specs.Ranges.{IsInRange};

use crate::lines::{make_device_line, make_link_line, make_number_line, make_vl_line};
use net_plan::Network;
use std::alloc::{AllocError, Global};
use tte_io::LineText;
use tte_units::Units;

/// The lines of the network, one behind another.
///
/// Fails when memory runs out.
pub(crate) fn network_text(alloc: Global, network: &Network) -> Result<Vec<u8>, AllocError>
    requires { IsInRange network.now }
    ensures { IfOk result (λ text. text.items ≡ network_text network.now) }
{
    let mut text = Vec::new(alloc);
    push_number(&mut text, "cycle", network.cycle)?;
    push_number(&mut text, "precision", network.precision)?;
    push_devices(&mut text, network)?;
    push_links(&mut text, network)?;
    push_vls(&mut text, network)?;
    Ok(text)
}

/// Adds the line of a number.
fn push_number(text: &mut Vec<u8>, word: &str, units: Units) -> Result<(), AllocError>
    requires word { length word.now ≤ 20 }
    requires units { pos 0 ≤ℤ units.0 }
    ensures { OnOk result (text.new.items ≡ text.old.items ++ number_line word.now units) }
{
    let mut line = LineText::new();
    make_number_line(&mut line, word, units);
    text.extend_from_slice(line.as_slice())
}

/// Adds the lines of the devices.
fn push_devices(text: &mut Vec<u8>, network: &Network) -> Result<(), AllocError>
    requires { IsInRange network.now }
    ensures { OnOk result (text.new.items ≡ text.old.items ++ concat (map device_line network.now.device)) }
{
    let mut line = LineText::new();
    'devices: for device in network.device.as_slice() {
        make_device_line(&mut line, device);
        text.extend_from_slice(line.as_slice())?;
    }
    Ok(())
}

/// Adds the lines of the links.
fn push_links(text: &mut Vec<u8>, network: &Network) -> Result<(), AllocError>
    requires { IsInRange network.now }
    ensures { OnOk result (text.new.items ≡ text.old.items ++ concat (map (link_line network.now) network.now.link)) }
{
    let mut line = LineText::new();
    'links: for link in network.link.as_slice() {
        make_link_line(&mut line, network, link);
        text.extend_from_slice(line.as_slice())?;
    }
    Ok(())
}

/// Adds the lines of the virtual links.
fn push_vls(text: &mut Vec<u8>, network: &Network) -> Result<(), AllocError>
    requires { IsInRange network.now }
    ensures { OnOk result (text.new.items ≡ text.old.items ++ concat (map (vl_line network.now) network.now.vl)) }
{
    let mut line = LineText::new();
    'vls: for vl in network.vl.as_slice() {
        make_vl_line(&mut line, network, vl);
        text.extend_from_slice(line.as_slice())?;
    }
    Ok(())
}
