ghost use Rattle.std.specs.Prelude.{◌≡◌, ◌+◌, ◌∷◌, ◌++◌, [], List, length, MatchResult, Some};
ghost use Rattle.run_law.specs.records.Happenings.{Happening, numbered};
ghost use Rattle.audit_sweep.specs.unpaid.Payments.{ArePayments, IsPaidSo};

use crate::records::OutOfMemory;
use crate::unpaid::Paid;
use run_law::{NoteBody, cause_of};
use std::alloc::Global;
use std::marker::Model;

/// What the records so far have paid of the debts that each of them brings.
#[derive(Drop)]
pub struct Payments {
    paid: Vec<Paid>,
}

impl Model for Payments {
    ghost use Rattle.std.specs.Prelude.{List};
    ghost use Rattle.audit_sweep.specs.declared.unpaid.paid.Paid.{Paid};

    ghost Value = { List Paid };

    ghost view = { λ p. p.paid.items };
}

impl Payments {
    /// No records.
    pub fn new(alloc: Global) -> Payments
        ensures { ArePayments [] result }
    {
        Payments {
            paid: Vec::new(alloc),
        }
    }

    /// Goes on by the next record, which says this. Where memory runs out nothing changes.
    pub fn push(&mut self, body: &NoteBody) -> Result<(), OutOfMemory>
        ensures { (hs : List Happening) (h : Happening) → ArePayments hs self.old → h.note.body ≡ body.now
            → h.note.number ≡ length hs + 1
            → MatchResult result (λ _. ArePayments (hs ++ h ∷ []) self.new) (λ _. self.new ≡ self.old) }
    {
        let count = self.paid.len();
        match self.paid.push(Paid::nothing()) {
            Ok(()) => {}
            Err(_) => return Err(OutOfMemory),
        }
        let cause = cause_of(body);
        if cause == 0 || (count as u64) < cause {
            return Ok(());
        }
        let place = (cause - 1) as usize;
        self.paid[place] = self.paid[place].and(Paid::by(body));
        Ok(())
    }

    /// How many records there are.
    pub fn count(&self) -> usize
        ensures { result ≡ length self.now }
    {
        self.paid.len()
    }

    /// What is paid of the debts that the record of this number brings.
    pub fn of(&self, number: u64) -> Paid
        ensures { (hs : List Happening) (h : Happening) → ArePayments hs self.now → numbered hs number ≡ Some h
            → IsPaidSo hs number result }
    {
        if number == 0 {
            return Paid::nothing();
        }
        match self.paid.get((number - 1) as usize) {
            Some(paid) => *paid,
            None => Paid::nothing(),
        }
    }
}
