//! Which records of a run are drawn.
ghost use Rattle.std.specs.Prelude.{◌≡◌};
ghost use Rattle.lens_svg.specs.Views.{flag_at, is_kept, is_shown, side_if};

use crate::layout::Side;
use std::marker::Model;

/// Some of the records and of the devices.
#[derive(Drop)]
pub struct Flags {
    /// Of each record, from record 1 on, whether it is drawn.
    pub records: Vec<bool>,
    /// Of each device whether it has a lane.
    pub lanes: Vec<bool>,
}

/// All records and devices, or those that have flags.
#[derive(Drop)]
pub struct DrawnRecords {
    pub flags: Option<Flags>,
}

impl Model for DrawnRecords {
    ghost use Rattle.{lens_svg.specs.Views.Choice, std.specs.Prelude.{Option, option_map}};

    ghost Value = { Option Choice };

    ghost view = { λ k. option_map (λ f. record { records = f.records.items; lanes = f.lanes.items }) k.flags };
}

impl DrawnRecords {
    /// Is the record of this number one of them?
    pub fn holds(&self, number: u64) -> bool
        ensures { result ≡ is_kept self.now number }
    {
        match &self.flags {
            None => true,
            Some(flags) => flag_at(&flags.records, number),
        }
    }

    /// Has the device at this place a lane?
    pub(crate) fn shows(&self, place: usize) -> bool
        ensures { result ≡ is_shown self.now place }
    {
        match &self.flags {
            None => true,
            Some(flags) => match flags.lanes.get(place) {
                Some(flag) => *flag,
                None => false,
            },
        }
    }
}

/// The flag of the record of this number, from 1; 0 is the number of none.
pub fn flag_at(flags: &[bool], number: u64) -> bool
    ensures { result ≡ flag_at flags.now number }
{
    if number == 0 {
        return false;
    }
    match flags.get((number - 1) as usize) {
        Some(flag) => *flag,
        None => false,
    }
}

/// A record that lies in the part is passed over where it is not kept.
pub(crate) fn side_if(kept: bool, side: Side) -> Side
    ensures { result ≡ side_if kept side }
{
    match side {
        Side::Within => { if kept { Side::Within } else { Side::Passed } }
        Side::Before | Side::Passed | Side::Behind => side,
    }
}
