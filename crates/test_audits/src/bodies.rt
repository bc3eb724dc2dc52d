//! The bodies of records by what they hold, in the order of their lines.

use net_plan::{DeviceId, LinkId, VlId, What};
use run_law::{Judgement, NoteBody, Reason, Why};
use sync_state::State;
use tte_units::Units;
use tte_units::frames::Members;

pub(super) fn event(line: u64, what: What) -> NoteBody {
    NoteBody::Event { line, what }
}

pub(super) fn sent(device: DeviceId, cycle: u32) -> NoteBody {
    NoteBody::Sent { device, cycle }
}

pub(super) fn lost(device: DeviceId, link: LinkId, cause: u64) -> NoteBody {
    NoteBody::Lost {
        device,
        link,
        cause,
    }
}

pub(super) fn permanent(
    device: DeviceId,
    link: LinkId,
    cause: u64,
    point: i64,
    verdict: Judgement,
) -> NoteBody {
    NoteBody::Permanent {
        device,
        link,
        cause,
        point: Units(point),
        verdict,
    }
}

pub(super) fn compressed(
    device: DeviceId,
    opened: i64,
    at: i64,
    cycle: u32,
    members: u32,
    verdict: Judgement,
) -> NoteBody {
    NoteBody::Compressed {
        device,
        opened: Units(opened),
        at: Units(at),
        cycle,
        members: Members(members),
        verdict,
    }
}

pub(super) fn corrected(device: DeviceId, cycle: u32, by: i64, adjustment: i64) -> NoteBody {
    NoteBody::Corrected {
        device,
        cycle,
        by: Units(by),
        adjustment: Units(adjustment),
    }
}

pub(super) fn changed(device: DeviceId, state: State, cause: u64, why: Why) -> NoteBody {
    NoteBody::State {
        device,
        state,
        cause,
        why,
    }
}

pub(super) fn clock(device: DeviceId, reading: i64, adjustment: i64, state: State) -> NoteBody {
    NoteBody::Clock {
        device,
        reading: Units(reading),
        adjustment: Units(adjustment),
        state,
    }
}

pub(super) fn tt_sent(
    device: DeviceId,
    link: LinkId,
    cause: u64,
    vl: VlId,
    cycle: u32,
) -> NoteBody {
    NoteBody::TtSent {
        device,
        link,
        cause,
        vl,
        cycle,
    }
}

pub(super) fn accepted(
    device: DeviceId,
    link: LinkId,
    cause: u64,
    vl: VlId,
    cycle: u32,
) -> NoteBody {
    NoteBody::Accepted {
        device,
        link,
        cause,
        vl,
        cycle,
    }
}

pub(super) fn delivered(
    device: DeviceId,
    link: LinkId,
    cause: u64,
    vl: VlId,
    cycle: u32,
) -> NoteBody {
    NoteBody::Delivered {
        device,
        link,
        cause,
        vl,
        cycle,
    }
}

pub(super) fn dropped(device: DeviceId, link: LinkId, cause: u64, reason: Reason) -> NoteBody {
    NoteBody::Dropped {
        device,
        link,
        cause,
        reason,
    }
}
