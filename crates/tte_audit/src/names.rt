//! The things of a network by their names. The likely one is looked at first.

ghost use Rattle.std.specs.Prelude.{◌≡◌, ◌≢◌, IfSome, None};
ghost use Rattle.net_plan.specs.Belonging.{HasDevice, HasLink, HasVl, device_name, link_name, vl_name};
ghost use Rattle.net_plan.specs.{Ranges.IsInRange, declared.ids.VlId.{VlId as VlIdValue}};
ghost use Rattle.net_plan.specs.declared.ids.{DeviceId.{DeviceId as DeviceIdValue}, LinkId.{LinkId as LinkIdValue}};

use net_plan::{DeviceId, LinkId, Network, VlId};

/// A device of this name.
pub(crate) fn device_of_name(network: &Network, likely: usize, word: &[u8]) -> Option<DeviceId>
    requires { IsInRange network.now }
    ensures is { (d : DeviceIdValue) → HasDevice network.now d → word.now ≡ device_name network.now d
        → result ≢ None }
    ensures found { IfSome result (λ d. HasDevice network.now d × (word.now ≡ device_name network.now d)) }
{
    if likely < network.device.as_slice().len() {
        let device = DeviceId(likely as u32);
        if network.device_name(device) == word {
            return Some(device);
        }
    }
    first_device_of_name(network, word)
}

#[inline(never)]
fn first_device_of_name(network: &Network, word: &[u8]) -> Option<DeviceId>
    requires { IsInRange network.now }
    ensures is { (d : DeviceIdValue) → HasDevice network.now d → word.now ≡ device_name network.now d
        → result ≢ None }
    ensures found { IfSome result (λ d. HasDevice network.now d × (word.now ≡ device_name network.now d)) }
{
    match str::from_utf8(word) {
        Ok(name) => network.device_named(name),
        // Each name is in ASCII.
        Err(_) => None,
    }
}

/// A link of this name.
pub(crate) fn link_of_name(network: &Network, likely: usize, word: &[u8]) -> Option<LinkId>
    requires { IsInRange network.now }
    ensures is { (l : LinkIdValue) → HasLink network.now l → word.now ≡ link_name network.now l → result ≢ None }
    ensures found { IfSome result (λ l. HasLink network.now l × (word.now ≡ link_name network.now l)) }
{
    if likely < network.link.as_slice().len() {
        let link = LinkId(likely as u32);
        if network.link_name(link) == word {
            return Some(link);
        }
    }
    first_link_of_name(network, word)
}

#[inline(never)]
fn first_link_of_name(network: &Network, word: &[u8]) -> Option<LinkId>
    requires { IsInRange network.now }
    ensures is { (l : LinkIdValue) → HasLink network.now l → word.now ≡ link_name network.now l → result ≢ None }
    ensures found { IfSome result (λ l. HasLink network.now l × (word.now ≡ link_name network.now l)) }
{
    match str::from_utf8(word) {
        Ok(name) => network.link_named(name),
        // Each name is in ASCII.
        Err(_) => None,
    }
}

/// A virtual link of this name.
pub(crate) fn vl_of_name(network: &Network, likely: usize, word: &[u8]) -> Option<VlId>
    requires { IsInRange network.now }
    ensures is { (v : VlIdValue) → HasVl network.now v → word.now ≡ vl_name network.now v → result ≢ None }
    ensures found { IfSome result (λ v. HasVl network.now v × (word.now ≡ vl_name network.now v)) }
{
    if likely < network.vl.as_slice().len() {
        let vl = VlId(likely as u32);
        if network.vl_name(vl) == word {
            return Some(vl);
        }
    }
    first_vl_of_name(network, word)
}

#[inline(never)]
fn first_vl_of_name(network: &Network, word: &[u8]) -> Option<VlId>
    requires { IsInRange network.now }
    ensures is { (v : VlIdValue) → HasVl network.now v → word.now ≡ vl_name network.now v → result ≢ None }
    ensures found { IfSome result (λ v. HasVl network.now v × (word.now ≡ vl_name network.now v)) }
{
    match str::from_utf8(word) {
        Ok(name) => network.vl_named(name),
        // Each name is in ASCII.
        Err(_) => None,
    }
}
