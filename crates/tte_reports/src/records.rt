ghost use Rattle.std.specs.Prelude.{◌∷◌, ◌≡◌, List, MatchOption, []};
ghost use Rattle.{run_law.specs.declared.note.Note.{Note as NoteValue}, tte_audit.specs.Named.IsNamed};
ghost use Rattle.tte_reports.specs.Reports.{AreLeft};

use net_plan::Network;
use run_law::Note;
use run_law::plain::no_record;
use tte_audit::{NameHints, first_lf, read_note};

/// The records of a report, one after another. It keeps none of them; for a second reading ask the report anew.
#[derive(Drop)]
pub struct Records<'a> {
    pub(crate) rest: &'a [u8],
}

impl<'a> Records<'a> {
    /// Takes the next record.
    pub fn next(&mut self, network: &Network) -> Option<Note>
        requires named { IsNamed network.now }
        requires left { (notes : List NoteValue) × AreLeft network.now self.old notes }
        ensures { (notes : List NoteValue) → AreLeft network.now self.old notes → MatchOption result (notes ≡ [])
            (λ note. (rest : List NoteValue) × (notes ≡ note ∷ rest) × AreLeft network.now self.new rest) }
    {
        let mut note = no_record();
        match self.next_in(network, None, &mut note) {
            Some(()) => Some(note),
            None => None,
        }
    }

    /// Takes the next record, and puts it in the place of another. With hints the names are found sooner.
    pub fn next_in(
        &mut self,
        network: &Network,
        hints: Option<&NameHints>,
        note: &mut Note,
    ) -> Option<()>
        requires named { IsNamed network.now }
        requires left { (notes : List NoteValue) × AreLeft network.now self.old notes }
        ensures { (notes : List NoteValue) → AreLeft network.now self.old notes → MatchOption result (notes ≡ [])
            (λ _. (rest : List NoteValue) × (notes ≡ note.new ∷ rest) × AreLeft network.now self.new rest) }
    {
        match first_lf(self.rest) {
            Some(place) => match read_note(network, hints, &self.rest[..place], note) {
                Some(()) => {
                    self.rest = &self.rest[place + 1..];
                    Some(())
                }
                None => None,
            },
            None => None,
        }
    }
}
