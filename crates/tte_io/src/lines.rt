ghost use Rattle.std.specs.Prelude.{◌<◌, ◌≡◌, ◌≤◌, IfNone, IfSome, IsSome, List, Ok, OnErr, OnOk, Option, Some, []};
ghost use Rattle.std.specs.Prelude.{false, length, true, ℕ};
ghost use Rattle.tte_io.specs.Faults.{Rose};

use crate::ahead::Ahead;
use crate::taking::{AheadStep, advance, take_line};
use crate::{LineText, Source, SourceFailed};
use std::marker::Model;

/// What a reader of lines found.
#[derive(Clone, Copy, PartialEq, Eq)]
pub enum LineTaken {
    /// A line of at most 4,096 octets. The last line may lack its LF.
    Whole,
    /// More than 4,096 octets came without an LF.
    Long,
    /// The end of the source.
    End,
}

/// How far the stored line has come.
#[derive(Clone, Copy)]
pub(crate) enum Progress {
    Unfinished,
    Taken,
    TooLong,
}

/// Takes lines from a source, with room for 4,096 octets ahead and 4,096 of the line.
#[derive(Drop)]
pub struct LineReader {
    ahead: Ahead,
    line: LineText,
    progress: Progress,
    /// Was the end of the source found? Then no more is read.
    ended: bool,
}

impl Model for LineReader {
    ghost use Rattle.std.specs.Prelude.{◌≤◌, length};
    ghost use Rattle.tte_io.specs.{Line.{IsLine, ahead_limit}, Progress.reader_state};
    ghost use Rattle.tte_io.specs.ReaderState.{KeepsEnd, KeepsLongLine, LineReaderState};

    ghost Value = { LineReaderState };

    ghost view = { λ r. reader_state r.progress r.line r.ahead r.ended };

    ghost invariant = { λ r. IsLine r.line × (length r.ahead ≤ ahead_limit)
        × KeepsLongLine (reader_state r.progress r.line r.ahead r.ended)
        × KeepsEnd (reader_state r.progress r.line r.ahead r.ended) };
}

impl LineReader {
    ghost use Rattle.tte_io.specs.{Line.{ahead_limit, line_limit}, NextLine.{KeepsLine, NextLine}};
    ghost use Rattle.tte_io.specs.{Outcome.TellsOutcome, ReaderState.{at_rest, pending}};

    /// A reader that has read nothing.
    pub fn new() -> LineReader
        ensures { result ≡ at_rest }
    {
        LineReader {
            ahead: Ahead::new(),
            line: LineText::new(),
            progress: Progress::Unfinished,
            ended: false,
        }
    }

    /// Takes the next line from the octets ahead, where they hold its end. It reads nothing. Behind
    /// the end of the source it answers `End`.
    ///
    /// None where more is to be read: all octets ahead are then of one line, which `next_line` takes.
    pub fn line_ahead(&mut self) -> Option<LineTaken>
        ensures found { IfSome result (λ found. (left : Option (List ℕ))
            → NextLine {E = SourceFailed} (pending self.old) self.old.ended left self.new left (Ok found)) }
        ensures none { IfNone result
            ((self.old.ended ≡ false) × (pending self.new ≡ pending self.old) × KeepsLine [] self.new) }
        ensures stays_long { self.old.long ≡ true → (result ≡ Some LineTaken.Long) × (self.new ≡ self.old) }
        ensures kept_bound { length self.new.kept ≤ line_limit }
        ensures ahead_bound { length self.new.ahead ≤ ahead_limit }
    {
        match self.progress {
            Progress::TooLong => return Some(LineTaken::Long),
            Progress::Taken => self.line.clear(),
            Progress::Unfinished => (),
        }
        self.progress = Progress::Unfinished;
        if self.ended {
            return Some(LineTaken::End);
        }
        match advance(&mut self.ahead, &mut self.line) {
            AheadStep::Ended => {
                self.progress = Progress::Taken;
                Some(LineTaken::Whole)
            }
            AheadStep::TooLong => {
                self.progress = Progress::TooLong;
                Some(LineTaken::Long)
            }
            AheadStep::Unfinished => None,
        }
    }

    /// Takes the next line. It reads only where no octet is ahead, and then into 4,096 octets.
    ///
    /// After a failed read, what was read and not given stays, and the next call goes on from it.
    /// After `Long` each call answers `Long` and reads nothing. Once a read gave nothing the source
    /// has ended: what came before is the last line, and each call behind it answers `End` and reads
    /// nothing.
    pub fn next_line<S: Source>(&mut self, source: &mut S) -> Result<LineTaken, SourceFailed>
        // What was read, what it gives by its answer, and what stays.
        ensures next { NextLine (pending self.old) self.old.ended (S.left source.old)
            self.new (S.left source.new) result }

        // The answer for octets that are told, which is one answer where no read fails.
        ensures told { TellsOutcome (pending self.old) self.old.ended (S.left source.old)
            self.new (S.left source.new) result }

        ensures stays_long { self.old.long ≡ true
            → (result ≡ Ok LineTaken.Long) × (self.new ≡ self.old) × (source.new ≡ source.old) }
        ensures stays_ended { self.old.ended ≡ true → (result ≡ Ok LineTaken.End) × (source.new ≡ source.old) }
        ensures kept_bound { length self.new.kept ≤ line_limit }
        ensures ahead_bound { length self.new.ahead ≤ ahead_limit }

        ensures never_falls { S.faults source.old ≤ S.faults source.new }
        ensures ok_unchanged { OnOk result (S.faults source.new ≡ S.faults source.old) }
        ensures failed_rose { OnErr result (Rose (S.faults source.old) (S.faults source.new)) }
    {
        match self.progress {
            Progress::TooLong => return Ok(LineTaken::Long),
            Progress::Taken => self.line.clear(),
            Progress::Unfinished => {}
        }
        self.progress = Progress::Unfinished;
        if self.ended {
            return Ok(LineTaken::End);
        }
        let taken = take_line(&mut self.ahead, &mut self.line, &mut self.ended, source)?;
        self.progress = match taken {
            LineTaken::Whole => Progress::Taken,
            LineTaken::Long => Progress::TooLong,
            LineTaken::End => Progress::Unfinished,
        };
        Ok(taken)
    }

    /// The line taken, without its LF. The last `next_line` answered `Whole`.
    pub fn text(&self) -> &[u8]
        requires { IsSome self.now.text }
        ensures { self.now.text ≡ Some result.now }
    {
        self.line.as_slice()
    }
}
