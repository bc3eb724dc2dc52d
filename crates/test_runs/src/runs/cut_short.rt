use crate::calls::try_call;
use crate::runs::calm_cycles::CALM_CYCLES;
use std::alloc::{AllocError, Global};
use std::process::Abort;
use std::test::Fail;
use tte_run::Status;
use worked_network::{CALM, Call, Fails, WORKED, call_of_two, silent};

const RUN: &[&str] = &["run", "net.toml", "net.trace"];

/// A run over the worked network, in which nothing fails.
fn whole<'a>(trace: &'a str, text: &'a str, status: Status) -> Call<'a> {
    let files = (WORKED.as_bytes(), trace.as_bytes());
    call_of_two(RUN, files, text, status)
}

/// A run over the worked network without traffic.
fn try_silent(rt: &impl Abort, alloc: Global, run: &Call<'_>) -> Result<(), Fail> {
    let first = silent().as_bytes();
    try_call(rt, alloc, &Call { first, ..*run })
}

const RATES: &str = "0 rate m1 50000\n0 rate m2 -50000\n0 rate m3 1\n1500000000 end\n";

const RATES_REPORT: &str = "1 0 event 1 rate m1 50000
2 0 event 2 rate m2 -50000
3 0 event 3 rate m3 1
4 1500000000 event 4 end
5 1500000000 clock m1 reading 1500075000 adj 0 state synchronised
6 1500000000 clock m2 reading 1499925000 adj 0 state synchronised
7 1500000000 clock m3 reading 1500000001 adj 0 state synchronised
8 1500000000 clock m4 reading 1500000000 adj 0 state synchronised
9 1500000000 clock c1 reading 1500000000 adj 0 state synchronised
10 1500000000 clock ra reading 1500000000 adj 0 state synchronised
11 1500000000 clock ca reading 1500000000 adj 0 state synchronised
12 1500000000 clock rb reading 1500000000 adj 0 state synchronised
13 1500000000 clock cb reading 1500000000 adj 0 state synchronised
";

const CUTS: &str = "1000 cut m1_a up\n2000 heal m1_a up\n3000 cut m1_b up\n4000 end\n";

const CUTS_REPORT: &str = "1 1000 event 1 cut m1_a up
2 2000 event 2 heal m1_a up
outside line 3 condition 6
";

// The first lines of a text.
fn first_lines(alloc: Global, text: &str, count: usize) -> Result<String, AllocError> {
    let mut front = String::new(alloc);
    for line in text.split_inclusive('\n').take(count) {
        front.push_str(line)?;
    }
    Ok(front)
}

// The run answers the same where this fails.
fn try_where(rt: &impl Abort, alloc: Global, run: &Call<'_>, fails: Fails) -> Result<(), Fail> {
    try_silent(rt, alloc, &Call { fails, ..*run })
}

// The run ends with this status behind so many lines of its text, where this fails.
fn try_cut(
    rt: &impl Abort,
    alloc: Global,
    run: &Call<'_>,
    fails: Fails,
    (lines, status): (usize, Status),
) -> Result<(), Fail> {
    let text = first_lines(alloc, run.text, lines)?;
    let cut = Call {
        fails,
        text: text.as_str(),
        status,
        ..*run
    };
    try_silent(rt, alloc, &cut)
}

// Lets each put of a run of so many lines fail in turn: what was written are the lines before it.
fn try_failing_puts(
    rt: &impl Abort,
    alloc: Global,
    run: &Call<'_>,
    lines: u32,
) -> Result<(), Fail> {
    for put in 1..=lines {
        let cut = (put as usize - 1, Status::WriteFault);
        try_cut(rt, alloc, run, Fails::Put(put), cut)?;
    }
    let behind = Fails::Put(lines.saturating_add(1));
    try_where(rt, alloc, run, behind)
}

// How many lines of a trace are whole in so many of its octets.
fn lines_in(trace: &str, octets: usize) -> usize {
    let came = trace.bytes().take(octets);
    came.filter(|octet| *octet == b'\n').count()
}

// Lets each of the reads that a run takes of its trace fail in turn: what was written are the
// records of the lines that had come whole. A read gives 17 octets.
fn try_failing_reads(
    rt: &impl Abort,
    alloc: Global,
    run: &Call<'_>,
    trace: &str,
    reads: u32,
) -> Result<(), Fail> {
    for read in 1..=reads {
        let lines = lines_in(trace, 17 * (read as usize - 1));
        let cut = (lines, Status::ReadFault);
        try_cut(rt, alloc, run, Fails::Second(read), cut)?;
    }
    let behind = Fails::Second(reads.saturating_add(1));
    try_where(rt, alloc, run, behind)
}

// Lets each call to pass on fail in turn. There is one before the reads of each line that is not whole
// ahead, at which the records of so many lines were put, and one at the end.
fn try_failing_passes(
    rt: &impl Abort,
    alloc: Global,
    run: &Call<'_>,
    put: &[usize],
) -> Result<(), Fail> {
    let mut pass = 1u32;
    for lines in put {
        let cut = (*lines, Status::WriteFault);
        try_cut(rt, alloc, run, Fails::Pass(pass), cut)?;
        pass = pass.saturating_add(1);
    }
    let status = Status::WriteFault;
    let unpassed = Call { status, ..*run };
    try_where(rt, alloc, &unpassed, Fails::Pass(pass))?;
    let behind = Fails::Pass(pass.saturating_add(1));
    try_where(rt, alloc, run, behind)
}

// Each read of the rates ends behind the next line of theirs, and the fifth gives nothing. The second
// line of the cuts takes two reads, with one call before them, and the third is refused.
#[test]
fn a_run_stops_where_passing_on_fails(rt: HostRuntime) -> Result<(), Fail> {
    let alloc = rt.alloc();
    let rates = whole(RATES, RATES_REPORT, Status::Done);
    try_failing_passes(&rt, alloc, &rates, &[0, 1, 2, 3, 4])?;
    let outside = whole(CUTS, CUTS_REPORT, Status::OutsideHypothesis);
    try_failing_passes(&rt, alloc, &outside, &[0, 1, 2])
}

#[test]
fn a_run_stops_at_a_failed_put(rt: HostRuntime) -> Result<(), Fail> {
    let alloc = rt.alloc();
    try_failing_puts(&rt, alloc, &whole(RATES, RATES_REPORT, Status::Done), 13)?;
    let outside = whole(CUTS, CUTS_REPORT, Status::OutsideHypothesis);
    try_failing_puts(&rt, alloc, &outside, 3)
}

const CYCLES_TRACE: &str = "524287999999 end\n";

// The calm run over three cycles of the whole network tells so many of its lines, where this put fails.
fn try_calm_put(
    rt: &impl Abort,
    alloc: Global,
    put: u32,
    (lines, status): (usize, Status),
) -> Result<(), Fail> {
    let text = first_lines(alloc, CALM_CYCLES, lines)?;
    let run = whole(CYCLES_TRACE, text.as_str(), status);
    let fails = Fails::Put(put);
    try_call(rt, alloc, &Call { fails, ..run })
}

#[test]
fn a_calm_run_stops_at_each_put(rt: HostRuntime) -> Result<(), Fail> {
    for put in 1..=307 {
        let cut = (put as usize - 1, Status::WriteFault);
        try_calm_put(&rt, rt.alloc(), put, cut)?;
    }
    try_calm_put(&rt, rt.alloc(), 308, (307, Status::Done))
}

const CALM_TRACE: &str = "160000000000 end\n";

// The same where a read of the network fails, and so this is told.
fn try_network_read(
    rt: &impl Abort,
    alloc: Global,
    read: u32,
    (text, status): (&str, Status),
) -> Result<(), Fail> {
    let run = whole(CALM_TRACE, text, status);
    let fails = Fails::First(read);
    try_call(rt, alloc, &Call { fails, ..run })
}

// A read of the network gives 17 octets, and the last one nothing. No more are made.
#[test]
fn a_run_stops_at_each_failed_read_of_the_network(rt: HostRuntime) -> Result<(), Fail> {
    let reads = (WORKED.len().div_ceil(17) as u32).saturating_add(1);
    for read in 1..=reads {
        try_network_read(&rt, rt.alloc(), read, ("", Status::ReadFault))?;
    }
    let calm = (CALM, Status::Done);
    try_network_read(&rt, rt.alloc(), reads.saturating_add(1), calm)
}

// The rates are 61 octets, behind which a read gives nothing. The cuts stop at their third line,
// which ends with octet 52.
#[test]
fn a_run_stops_at_a_failed_read(rt: HostRuntime) -> Result<(), Fail> {
    let alloc = rt.alloc();
    let rates = whole(RATES, RATES_REPORT, Status::Done);
    try_failing_reads(&rt, alloc, &rates, RATES, 5)?;
    let outside = whole(CUTS, CUTS_REPORT, Status::OutsideHypothesis);
    try_failing_reads(&rt, alloc, &outside, CUTS, 4)
}

// The fifth read gives nothing, so the end, which has no LF, came whole, and no more is read. Where it fails instead,
// the end has not come whole.
#[test]
fn a_last_line_without_its_lf_may_be_cut(rt: HostRuntime) -> Result<(), Fail> {
    let alloc = rt.alloc();
    let run = whole(RATES.trim_end(), RATES_REPORT, Status::Done);
    try_cut(&rt, alloc, &run, Fails::Second(5), (3, Status::ReadFault))?;
    try_where(&rt, alloc, &run, Fails::Second(6))
}
