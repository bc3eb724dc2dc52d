ghost use Rattle.std.specs.Prelude.{◌≡◌};

use net_plan::{DeviceId, Name};
use std::marker::Model;

/// What a designer asks for: frames from an end system to others, one in each period. Times are places in the cycle in
/// units of 2^-16 ns, up to 2^40.
#[derive(Drop)]
pub struct Message {
    pub name: Name,
    /// It is None where it is to be chosen.
    pub id: Option<u16>,
    /// From 60 to 1,514 octets.
    pub length: u16,
    pub ethertype: u16,
    /// 1, 2, 4, 8, 16, 32 or 64 cycles.
    pub period: u32,
    /// Below the period. It is None where it is to be chosen.
    pub phase: Option<u32>,
    /// The frame is not dispatched before.
    pub after: Option<u64>,
    /// No window of a receiver ends later.
    pub by: Option<u64>,
    pub sender: DeviceId,
    /// At least one, no two the same, and none the sender.
    pub receivers: Vec<DeviceId>,
}

impl Model for Message {
    ghost use Rattle.lens_plan.specs.messages.Message.{Message, message_of};

    ghost Value = { Message };

    ghost view = { λ m. message_of m.name m.id m.length m.ethertype m.period m.phase m.after m.by m.sender m.receivers.items };
}

impl Message {
    /// The receivers.
    pub fn receivers(&self) -> &[DeviceId]
        ensures { result.now ≡ self.now.receivers }
    {
        self.receivers.as_slice()
    }
}
