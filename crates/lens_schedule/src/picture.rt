//! All parts of the picture of a network.
ghost use Rattle.std.specs.Prelude.{◌++◌, ◌^◌, ◌≡◌, ◌≤◌, All, IfOk, OnOk, length, map};
ghost use Rattle.lens_schedule.specs.Picture.{IsPicture, IsSmall, cycle_parts, frame_part, front_parts, full_parts};
ghost use Rattle.lens_schedule.specs.Picture.{lane_part, lane_place, parts_of, sheet_of, tree_y, twig_part, zone_parts};
ghost use Rattle.net_plan.specs.{Paths.IsTree, Ranges.IsInRange};
ghost use Rattle.schedule_tables.specs.Entries.{IsEntryInRange};

use crate::frames::frame_of;
use crate::lanes::{column_by, column_of, lanes_before, lanes_of, port_number};
use crate::tree::{twigs_before, twigs_of};
use crate::zones::stretches;
use crate::{Lane, Scale, SchedulePart, Twig};
use lens_svg::PicturePoint;
use net_plan::Network;
use schedule_tables::Entry;
use std::alloc::{AllocError, Global};
use tte_units::frames::Channel;

/// How far down the lanes begin and end.
#[derive(Clone, Copy)]
pub(crate) struct Sheet {
    top: u64,
    bottom: u64,
}

/// How far down a row of the trees is.
fn tree_y(row: u64) -> u64
    requires { row ≤ 2 ^ 40 }
    ensures value { result ≡ tree_y row }
    ensures bound { result ≤ 2 ^ 45 }
{
    84 + 13 * row
}

/// Where the trees and the lanes are.
fn sheet_of(network: &Network, lanes: &[Lane], a: &[Twig], b: &[Twig]) -> Sheet
    requires range { IsInRange network.now }
    requires lanes { length lanes.now ≤ 2 ^ 40 }
    requires a { length a.now ≤ 2 ^ 40 }
    requires b { length b.now ≤ 2 ^ 40 }
    ensures value { result ≡ sheet_of network.now lanes.now a.now b.now }
    ensures small { IsSmall result }
{
    let rows = (a.len() as u64).max(b.len() as u64);
    let top = tree_y(rows) + 30;
    let ports = 2 * network.link.as_slice().len() as u64;
    let on_a = lanes_before(lanes, column_of(Channel::A), ports);
    let on_b = lanes_before(lanes, column_of(Channel::B), ports);
    Sheet {
        top,
        bottom: top + 20 * on_a.max(on_b),
    }
}

/// A device in the tree of its channel.
fn twig_part(twigs: &[Twig], twig: Twig) -> SchedulePart
    requires { length twigs.now ≤ 2 ^ 40 }
    ensures { result ≡ twig_part twigs.now twig }
{
    let at = PicturePoint {
        x: twig.x,
        y: tree_y(twigs_before(twigs, twig.place)),
    };
    SchedulePart::Twig(twig, at, tree_y(twigs_before(twigs, twig.parent)))
}

/// Adds the devices of a channel.
fn push_twigs(parts: &mut Vec<SchedulePart>, twigs: &[Twig]) -> Result<(), AllocError>
    requires { length twigs.now ≤ 2 ^ 40 }
    ensures { OnOk result (parts.new.items ≡ parts.old.items ++ map (twig_part twigs.now) twigs.now) }
{
    'twigs: for twig in twigs {
        parts.push(twig_part(twigs, *twig))?;
    }
    Ok(())
}

/// Adds the stretches of the cycle in the column of a channel.
fn push_zones(
    parts: &mut Vec<SchedulePart>,
    network: &Network,
    scale: Scale,
    sheet: Sheet,
    channel: Channel,
) -> Result<(), AllocError>
    requires range { IsInRange network.now }
    requires scale { scale.end ≤ 2 ^ 50 }
    ensures { OnOk result (parts.new.items ≡ parts.old.items ++ zone_parts network.now scale sheet channel) }
{
    let all = stretches();
    'stretches: for stretch in all {
        let zone = stretch.zone(network, scale, column_of(channel), sheet.top, sheet.bottom);
        parts.push(SchedulePart::Zone(zone))?;
    }
    Ok(())
}

/// Where the lane of a port begins.
fn lane_place(lanes: &[Lane], top: u64, column: u64, port: u64) -> PicturePoint
    requires lanes { length lanes.now ≤ 2 ^ 40 }
    requires top { top ≤ 2 ^ 46 }
    ensures { result ≡ lane_place lanes.now top column port }
{
    PicturePoint {
        x: column,
        y: top + 20 * lanes_before(lanes, column, port),
    }
}

/// A port in its lane.
fn lane_part(lanes: &[Lane], top: u64, lane: Lane) -> SchedulePart
    requires lanes { length lanes.now ≤ 2 ^ 40 }
    requires top { top ≤ 2 ^ 46 }
    ensures { result ≡ lane_part lanes.now top lane }
{
    let port = port_number(lane.link, lane.way);
    SchedulePart::Lane(lane, lane_place(lanes, top, lane.column, port))
}

/// Adds the ports.
fn push_lanes(parts: &mut Vec<SchedulePart>, lanes: &[Lane], top: u64) -> Result<(), AllocError>
    requires lanes { length lanes.now ≤ 2 ^ 40 }
    requires top { top ≤ 2 ^ 46 }
    ensures { OnOk result (parts.new.items ≡ parts.old.items ++ map (lane_part lanes.now top) lanes.now) }
{
    'lanes: for lane in lanes {
        parts.push(lane_part(lanes, top, *lane))?;
    }
    Ok(())
}

/// A row's frame in the lane of its port.
fn frame_part(
    network: &Network,
    scale: Scale,
    lanes: &[Lane],
    top: u64,
    entry: &Entry,
) -> SchedulePart
    requires range { IsInRange network.now }
    requires entry { IsEntryInRange network.now entry.now }
    requires scale { scale.end ≤ 2 ^ 50 }
    requires lanes { length lanes.now ≤ 2 ^ 40 }
    requires top { top ≤ 2 ^ 46 }
    ensures { result ≡ frame_part network.now scale lanes.now top entry.now }
{
    let port = port_number(entry.row.link, entry.row.way);
    let at = lane_place(lanes, top, column_by(network, entry.row.link), port);
    SchedulePart::Frame(frame_of(network, scale, at, entry))
}

/// Adds the frames.
fn push_frames(
    parts: &mut Vec<SchedulePart>,
    network: &Network,
    scale: Scale,
    lanes: &[Lane],
    top: u64,
    entries: &[Entry],
) -> Result<(), AllocError>
    requires range { IsInRange network.now }
    requires rows { All (IsEntryInRange network.now) entries.now }
    requires scale { scale.end ≤ 2 ^ 50 }
    requires lanes { length lanes.now ≤ 2 ^ 40 }
    requires top { top ≤ 2 ^ 46 }
    ensures { OnOk result (parts.new.items
        ≡ parts.old.items ++ map (frame_part network.now scale lanes.now top) entries.now) }
{
    'entries: for entry in entries {
        parts.push(frame_part(network, scale, lanes, top, entry))?;
    }
    Ok(())
}

/// Adds the cycle with its lanes and frames.
fn push_full(
    parts: &mut Vec<SchedulePart>,
    network: &Network,
    scale: Scale,
    entries: &[Entry],
    lanes: &[Lane],
    sheet: Sheet,
) -> Result<(), AllocError>
    requires range { IsInRange network.now }
    requires rows { All (IsEntryInRange network.now) entries.now }
    requires scale { scale.end ≤ 2 ^ 50 }
    requires lanes { length lanes.now ≤ 2 ^ 40 }
    requires sheet { IsSmall sheet }
    ensures { OnOk result (parts.new.items
        ≡ parts.old.items ++ full_parts network.now scale entries.now lanes.now sheet) }
{
    push_zones(parts, network, scale, sheet, Channel::A)?;
    push_zones(parts, network, scale, sheet, Channel::B)?;
    push_lanes(parts, lanes, sheet.top)?;
    push_frames(parts, network, scale, lanes, sheet.top, entries)?;
    Ok(())
}

/// Adds the cycle, or that there are no rows.
fn push_cycle(
    parts: &mut Vec<SchedulePart>,
    network: &Network,
    entries: &[Entry],
    lanes: &[Lane],
    sheet: Sheet,
) -> Result<(), AllocError>
    requires range { IsInRange network.now }
    requires rows { All (IsEntryInRange network.now) entries.now }
    requires lanes { length lanes.now ≤ 2 ^ 40 }
    requires sheet { IsSmall sheet }
    ensures { OnOk result (parts.new.items ≡ parts.old.items ++ cycle_parts network.now entries.now lanes.now sheet) }
{
    if entries.len() == 0 {
        parts.push(SchedulePart::Bare(sheet.top))?;
        Ok(())
    } else {
        push_full(
            parts,
            network,
            Scale::of(network, entries),
            entries,
            lanes,
            sheet,
        )
    }
}

/// Adds the beginning: how high the picture is, what each has, and the numbers of the network.
fn push_front(parts: &mut Vec<SchedulePart>, sheet: Sheet, rows: u64) -> Result<(), AllocError>
    requires { IsSmall sheet }
    ensures { OnOk result (parts.new.items ≡ parts.old.items ++ front_parts sheet rows) }
{
    parts.push(SchedulePart::Opening(1900, sheet.bottom + 40))?;
    parts.push(SchedulePart::Title)?;
    parts.push(SchedulePart::Head)?;
    parts.push(SchedulePart::Heading)?;
    parts.push(SchedulePart::Caption(rows))?;
    Ok(())
}

/// The parts of the picture, with these lanes and the trees of both channels.
fn parts_of(
    alloc: Global,
    network: &Network,
    entries: &[Entry],
    lanes: &[Lane],
    a: &[Twig],
    b: &[Twig],
) -> Result<Vec<SchedulePart>, AllocError>
    requires range { IsInRange network.now }
    requires rows { All (IsEntryInRange network.now) entries.now }
    requires lanes { length lanes.now ≤ 2 ^ 40 }
    requires a { length a.now ≤ 2 ^ 40 }
    requires b { length b.now ≤ 2 ^ 40 }
    ensures { IfOk result (λ parts. parts.items ≡ parts_of network.now entries.now lanes.now a.now b.now) }
{
    let sheet = sheet_of(network, lanes, a, b);
    let mut parts = Vec::new(alloc);
    push_front(&mut parts, sheet, entries.len() as u64)?;
    push_twigs(&mut parts, a)?;
    push_twigs(&mut parts, b)?;
    push_cycle(&mut parts, network, entries, lanes, sheet)?;
    parts.push(SchedulePart::Close)?;
    Ok(parts)
}

/// The parts of the picture of a network.
pub(crate) fn picture_of(
    alloc: Global,
    network: &Network,
    entries: &[Entry],
) -> Result<Vec<SchedulePart>, AllocError>
    requires range { IsInRange network.now }
    requires tree { IsTree network.now }
    requires links { length network.now.link ≤ 128 }
    requires few { length entries.now ≤ 1024 }
    requires rows { All (IsEntryInRange network.now) entries.now }
    ensures { IfOk result (λ parts. IsPicture network.now entries.now parts.items) }
{
    let a = twigs_of(alloc, network, Channel::A)?;
    let b = twigs_of(alloc, network, Channel::B)?;
    let lanes = lanes_of(alloc, network, entries)?;
    parts_of(
        alloc,
        network,
        entries,
        lanes.as_slice(),
        a.as_slice(),
        b.as_slice(),
    )
}
