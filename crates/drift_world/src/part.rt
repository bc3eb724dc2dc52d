//! The parts of what a device does by itself.

ghost use Rattle.std.specs.Prelude.{◌↔◌, ◌≡◌, ◌≤◌, IsTrue, false};
ghost use Rattle.drift_world.specs.{Parts.{part_of, part_rank}, declared.part.ToDo.TheVariants.Now};
ghost use Rattle.drift_world.specs.declared.part.Part.{Part as PartOf};
ghost use Rattle.run_law.specs.plain.Places.{number_of};

use device_rules::TaskKind;
use run_law::plain::Rank;
use tte_units::Units;

/// A part of what a device does by itself at an instant, each behind those before it of all devices.
#[derive(Clone, Copy, PartialEq, Eq)]
pub enum Part {
    /// The frames of its collections.
    Emissions,
    /// Its control frames of a cycle.
    Sendings,
    /// Its correction point, and behind it its dispatches.
    Late,
}

impl Part {
    /// The part of a thing of this kind.
    pub fn of(kind: TaskKind) -> Part
        ensures { result ≡ part_of kind }
    {
        match kind {
            TaskKind::Emission => Part::Emissions,
            TaskKind::Sending => Part::Sendings,
            TaskKind::Correction | TaskKind::Dispatch => Part::Late,
        }
    }

    /// The part that stands at this rank.
    pub fn of_rank(rank: u8) -> Part
        ensures { (part : PartOf) → rank ≡ part_rank part → result ≡ part }
    {
        if rank == Part::Emissions.rank().number() {
            return Part::Emissions;
        }
        if rank == Part::Sendings.rank().number() {
            Part::Sendings
        } else {
            Part::Late
        }
    }

    /// The rank at which it stands.
    pub fn rank(self) -> Rank
        ensures { number_of result ≡ part_rank self }
    {
        match self {
            Part::Emissions => Rank::Compressed,
            Part::Sendings => Rank::Sent,
            Part::Late => Rank::Corrected,
        }
    }

    /// Does it stand at this rank, or behind it?
    pub fn is_from(self, rank: u8) -> bool
        ensures { IsTrue result ↔ (rank ≤ part_rank self) }
    {
        rank <= self.rank().number()
    }
}

/// What a device has to do.
#[derive(Clone, Copy)]
pub enum ToDo {
    /// Something is due at the instant, and the first of it is of this part.
    Now(Part),
    /// Nothing is due. The reading at which it acts next, if it does.
    Next(Option<Units>),
}

/// Is something due of which the first is of this part?
pub fn is_due(left: ToDo, part: Part) -> bool
    ensures yes { IsTrue result → left ≡ Now part }
    ensures no { result ≡ false → left ≡ Now part → ⊥ }
{
    match left {
        ToDo::Now(other) => other == part,
        ToDo::Next(_) => false,
    }
}
