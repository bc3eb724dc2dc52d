ghost use Rattle.std.specs.Prelude.{◌≡◌};
ghost use Rattle.run_law.specs.records.Causes.{cause_of};

use crate::{Judgement, Reason, Why};
use net_plan::{DeviceId, LinkId, VlId, What};
use sync_state::State;
use tte_units::Units;
use tte_units::frames::Members;

/// A record of a run.
#[derive(Drop)]
pub struct Note {
    /// Its place among the records of its run, from 1.
    pub number: u64,
    /// The world time at which it happens, in units of 2^-16 ns.
    pub time: Units,
    pub body: NoteBody,
}

/// What a record says. A `cause` is the number of an earlier record, or 0 where there is none. Readings, points
/// and adjustments are in units of 2^-16 ns.
#[derive(PartialEq, Eq, Drop)]
pub enum NoteBody {
    /// An event befalls the network.
    Event {
        /// The line of the trace that has it, from 1.
        line: u64,
        what: What,
    },
    /// A protocol control frame arrives and is taken.
    Arrived {
        device: DeviceId,
        /// The link that it came by.
        link: LinkId,
        /// The record of its leaving, or of the `send` event that put it on the link.
        cause: u64,
        /// Its transparent clock, with the nominal delay of the wire.
        clock: u64,
    },
    /// A protocol control frame is permanent.
    Permanent {
        device: DeviceId,
        /// The link that it came by.
        link: LinkId,
        /// The record of its arrival.
        cause: u64,
        /// The reading from which on it is permanent.
        point: Units,
        verdict: Judgement,
    },
    /// A compression master sends the frame of a collection.
    Compressed {
        device: DeviceId,
        /// The point that opened the collection.
        opened: Units,
        /// The reading at which it is sent.
        at: Units,
        cycle: u32,
        members: Members,
        /// How the compression master heard it.
        verdict: Judgement,
    },
    /// A master sends the protocol control frame of a cycle.
    Sent {
        device: DeviceId,
        cycle: u32,
    },
    /// A device corrects its clock.
    Corrected {
        device: DeviceId,
        /// The cycle of the correction point.
        cycle: u32,
        /// What is added to the adjustment.
        by: Units,
        /// The adjustment from now on.
        adjustment: Units,
    },
    /// A device changes its state.
    State {
        device: DeviceId,
        /// The state from now on.
        state: State,
        /// The event, the frame or the correction by which it does, or 0 for a clique.
        cause: u64,
        why: Why,
    },
    /// A protocol control frame leaves a device.
    Left {
        device: DeviceId,
        link: LinkId,
        /// The record with which it was given to the link.
        cause: u64,
        /// Its transparent clock, with what the device held it.
        clock: u64,
    },
    /// A frame meets a cut way.
    Lost {
        device: DeviceId,
        link: LinkId,
        /// What that of its leaving or its dispatch would have been, or the `send` event.
        cause: u64,
    },
    /// A time-triggered frame is dispatched.
    TtSent {
        device: DeviceId,
        link: LinkId,
        /// The record with which a switch took it, or 0 at its sender.
        cause: u64,
        vl: VlId,
        cycle: u32,
    },
    /// A switch takes a time-triggered frame.
    Accepted {
        device: DeviceId,
        /// The link that it came by.
        link: LinkId,
        /// The record of its dispatch, or of the `send` event that put it on the link.
        cause: u64,
        vl: VlId,
        /// The switch's cycle.
        cycle: u32,
    },
    /// An end system takes a time-triggered frame.
    Delivered {
        device: DeviceId,
        /// The link that it came by.
        link: LinkId,
        /// The record of its dispatch, or of the `send` event that put it on the link.
        cause: u64,
        vl: VlId,
        /// The end system's cycle.
        cycle: u32,
    },
    /// A frame is dropped.
    Dropped {
        device: DeviceId,
        /// The link that it came by, or at its leaving the one that it was given to.
        link: LinkId,
        /// The record that it came from.
        cause: u64,
        reason: Reason,
    },
    /// A device's clock at the end of the run.
    Clock {
        device: DeviceId,
        /// What it reads.
        reading: Units,
        /// What is added to the reading for the local clock.
        adjustment: Units,
        state: State,
    },
}

/// The number of the record that a record comes from, or 0.
pub fn cause_of(body: &NoteBody) -> u64
    ensures { result ≡ cause_of body.now }
{
    match body {
        NoteBody::Arrived { cause, .. }
        | NoteBody::Permanent { cause, .. }
        | NoteBody::State { cause, .. }
        | NoteBody::Left { cause, .. }
        | NoteBody::Lost { cause, .. }
        | NoteBody::TtSent { cause, .. }
        | NoteBody::Accepted { cause, .. }
        | NoteBody::Delivered { cause, .. }
        | NoteBody::Dropped { cause, .. } => *cause,
        NoteBody::Event { .. }
        | NoteBody::Compressed { .. }
        | NoteBody::Sent { .. }
        | NoteBody::Corrected { .. }
        | NoteBody::Clock { .. } => 0,
    }
}
