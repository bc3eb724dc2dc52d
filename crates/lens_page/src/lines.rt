//! The lines that tell of a network.

ghost use Rattle.std.specs.Prelude.{◌++◌, ◌+◌, ◌≡◌, ◌≤ℤ◌, ◌≤◌, length, pos};
ghost use Rattle.lens_page.specs.Lines.{channel_of, channel_words, device_line, ends_words, link_line};
ghost use Rattle.lens_page.specs.Lines.{number_line, role_word, vl_line};
ghost use Rattle.net_plan.specs.Ranges.{IsDeviceInRange, IsInRange, IsLinkInRange, IsVlInRange};
ghost use Rattle.net_plan.specs.NameText.{IsNameText};

use net_plan::{Device, Link, Name, Network, Role, VirtualLink};
use tte_io::LineText;
use tte_units::Units;
use tte_units::frames::Channel;

/// Makes the line of a number of the network.
#[tactic(auto, unfolding(crate::specs::Lines::number_line))]
pub(crate) fn make_number_line(line: &mut LineText, word: &str, units: Units)
    requires word { length word.now ≤ 20 }
    requires units { pos 0 ≤ℤ units.0 }
    ensures { line.new ≡ number_line word.now units }
{
    line.clear();
    line.push(word);
    line.push(" ");
    line.push_decimal(units.amount());
    line.push("\n");
}

/// Makes the line of a device.
#[tactic(auto, unfolding(crate::specs::Lines::device_line))]
pub(crate) fn make_device_line(line: &mut LineText, device: &Device)
    requires { IsDeviceInRange device.now }
    ensures { line.new ≡ device_line device.now }
{
    line.clear();
    line.push("device ");
    push_name(line, &device.name);
    line.push(" ");
    line.push(role_word(device.role));
    line.push(channel_words(device.channel));
    line.push("\n");
}

/// Makes the line of a link of the network.
#[tactic(auto, unfolding(crate::specs::Lines::link_line))]
pub(crate) fn make_link_line(line: &mut LineText, network: &Network, link: &Link)
    requires range { IsInRange network.now }
    requires link { IsLinkInRange network.now link.now }
    ensures { line.new ≡ link_line network.now link.now }
{
    line.clear();
    line.push("link ");
    push_name(line, &link.name);
    push_ends(line, network, link);
    line.push(channel_words(channel_of(network, link)));
    line.push("\n");
}

/// Makes the line of a virtual link of the network.
#[tactic(auto, unfolding(crate::specs::Lines::vl_line))]
pub(crate) fn make_vl_line(line: &mut LineText, network: &Network, vl: &VirtualLink)
    requires range { IsInRange network.now }
    requires vl { IsVlInRange network.now vl.now }
    ensures { line.new ≡ vl_line network.now vl.now }
{
    line.clear();
    line.push("vl ");
    push_name(line, &vl.name);
    line.push(" ");
    line.append(network.device_name(vl.sender));
    line.push("\n");
}

/// Adds a name.
fn push_name(line: &mut LineText, name: &Name)
    requires name { IsNameText name.now }
    requires room { length line.old + 16 ≤ 4096 }
    ensures text { line.new ≡ line.old ++ name.now }
    ensures grows { length line.new ≤ length line.old + 16 }
{
    line.append(name.as_slice());
}

/// Adds the names of the two ends of the link.
#[tactic(auto, unfolding(crate::specs::Lines::ends_words))]
fn push_ends(line: &mut LineText, network: &Network, link: &Link)
    requires range { IsInRange network.now }
    requires link { IsLinkInRange network.now link.now }
    requires room { length line.old + 40 ≤ 4096 }
    ensures text { line.new ≡ line.old ++ ends_words network.now link.now }
    ensures grows { length line.new ≤ length line.old + 40 }
{
    line.push(" ");
    line.append(network.device_name(link.child));
    line.push(" ");
    line.append(network.device_name(link.parent));
}

/// The word of a role.
fn role_word(role: Role) -> &'static str
    ensures text { result.now ≡ role_word role }
    ensures short { length result.now ≤ 6 }
{
    match role {
        Role::Master => "master",
        Role::Client => "client",
        Role::Cm => "cm",
        Role::Relay => "relay",
    }
}

/// The word of a channel, where there is one.
fn channel_words(channel: Option<Channel>) -> &'static str
    ensures text { result.now ≡ channel_words channel }
    ensures short { length result.now ≤ 2 }
{
    match channel {
        Some(Channel::A) => " a",
        Some(Channel::B) => " b",
        None => "",
    }
}

/// The channel of the link's parent.
fn channel_of(network: &Network, link: &Link) -> Option<Channel>
    ensures { result ≡ channel_of network.now link.now }
{
    network
        .device
        .as_slice()
        .get(link.parent.0 as usize)?
        .channel
}
