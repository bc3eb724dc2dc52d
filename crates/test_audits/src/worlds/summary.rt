use crate::bodies::{accepted, changed, compressed, corrected, delivered, dropped, lost, tt_sent};
use net_plan::{DeviceId, LinkId, VlId};
use run_law::{Judgement, Note, NoteBody, Reason, Why};
use sync_state::State;
use tte_io::LineText;
use tte_traces::storms::summary::{Counts, Drops, LINES, Summary, Tally};
use tte_units::Units;

const DEVICE: DeviceId = DeviceId(3);

const LINK: LinkId = LinkId(5);

const VL: VlId = VlId(1);

// Counts so many records of this body.
fn add(tally: &mut Tally, times: u32, body: NoteBody) {
    let note = Note {
        number: 7,
        time: Units(9),
        body,
    };
    for _ in 0..times {
        if tally.counts().records < 100 {
            tally.count(&note);
        }
    }
}

#[test]
fn records_are_counted_by_their_kinds(rt: HostRuntime) {
    let mut tally = Tally::new();
    let within = Judgement::Within;
    add(&mut tally, 1, compressed(DEVICE, 1, 2, 0, 3, within));
    add(&mut tally, 2, corrected(DEVICE, 1, -4, 4));
    add(&mut tally, 3, lost(DEVICE, LINK, 1));
    add(&mut tally, 4, tt_sent(DEVICE, LINK, 0, VL, 2));
    add(&mut tally, 5, accepted(DEVICE, LINK, 1, VL, 2));
    add(&mut tally, 6, delivered(DEVICE, LINK, 1, VL, 2));
    let left = changed(DEVICE, State::Integrating, 0, Why::SyncClique);
    add(&mut tally, 7, left);
    let counts = tally.counts();
    let told = [
        counts.records,
        counts.compressed,
        counts.corrected,
        counts.lost,
        counts.tt_sent,
        counts.accepted,
        counts.delivered,
    ];
    assert!(rt; told == [28, 1, 2, 3, 4, 5, 6]);
    assert!(rt; counts.dropped == Counts::NONE.dropped);
}

const REASONS: [Reason; 17] = [
    Reason::Off,
    Reason::ColdStart,
    Reason::Domain,
    Reason::Member,
    Reason::Old,
    Reason::Gate,
    Reason::Cycle,
    Reason::Unsynchronised,
    Reason::Unknown,
    Reason::Length,
    Reason::Early,
    Reason::Late,
    Reason::Repeat,
    Reason::RefusedLength(59),
    Reason::RefusedEtherType,
    Reason::RefusedReserved(20),
    Reason::RefusedKind(3),
];

// The counts where a frame is dropped once for each of them.
const DROPPED: Drops = Drops {
    off: 1,
    refused: 4,
    cold_start: 1,
    domain: 1,
    member: 1,
    too_old: 1,
    gate: 1,
    cycle: 1,
    unsynchronised: 1,
    unknown: 1,
    wrong_length: 1,
    early: 1,
    late: 1,
    repeated: 1,
};

#[test]
fn drops_are_counted_by_their_reasons(rt: HostRuntime) {
    let mut tally = Tally::new();
    for reason in REASONS {
        add(&mut tally, 1, dropped(DEVICE, LINK, 1, reason));
    }
    let counts = tally.counts();
    assert!(rt; counts.dropped == DROPPED);
    assert!(rt; [counts.records, counts.lost] == [17, 0]);
}

const TEXT: [&str; LINES] = [
    "storm seed 18446744073709551615 cycles 100000\n",
    "records 1000\n",
    "compressed 1\n",
    "corrected 2\n",
    "lost 3\n",
    "ttsent 4\n",
    "accepted 5\n",
    "delivered 6\n",
    "dropped off 7\n",
    "dropped refused 8\n",
    "dropped coldstart 9\n",
    "dropped domain 10\n",
    "dropped member 11\n",
    "dropped old 12\n",
    "dropped gate 13\n",
    "dropped cycle 14\n",
    "dropped unsynchronised 15\n",
    "dropped unknown 16\n",
    "dropped length 17\n",
    "dropped early 18\n",
    "dropped late 19\n",
    "dropped repeat 0\n",
    "spread 98304000 precision 1048576000\n",
];

const STORM: Summary = Summary {
    seed: u64::MAX,
    cycles: 100_000,
    counts: Counts {
        records: 1000,
        compressed: 1,
        corrected: 2,
        lost: 3,
        tt_sent: 4,
        accepted: 5,
        delivered: 6,
        dropped: Drops {
            off: 7,
            refused: 8,
            cold_start: 9,
            domain: 10,
            member: 11,
            too_old: 12,
            gate: 13,
            cycle: 14,
            unsynchronised: 15,
            unknown: 16,
            wrong_length: 17,
            early: 18,
            late: 19,
            repeated: 0,
        },
    },
    spread: Units(98_304_000),
    precision: Units(1_048_576_000),
};

#[test]
fn lines_of_a_summary(rt: HostRuntime) {
    let mut line = LineText::new();
    for number in 0..LINES {
        STORM.make_line(&mut line, number);
        assert!(rt; line.as_slice() == TEXT[number].as_bytes());
    }
}
