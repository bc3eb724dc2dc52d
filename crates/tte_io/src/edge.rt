ghost use Rattle.std.specs.Prelude.{◌≡◌, ◌≤◌, false, IfOk, None, OnErr, OnOk};
ghost use Rattle.tte_io.specs.Faults.{Rose};

use crate::held::HeldOctets;
use crate::{OutOfMemory, Sink, SinkFailed, Source, SourceFailed};
use std::alloc::Global;
use std::fs;
use std::io::Read;
use std::marker::Model;
use std::rt::Files;

/// The path of a file.
#[derive(Drop)]
pub struct PathText {
    text: String,
}

impl Model for PathText {
    ghost use Rattle.std.specs.Prelude.{ℕ, List, string_bytes};

    ghost Value = { List ℕ };

    ghost view = { λ p. string_bytes p.text };
}

impl PathText {
    /// A copy of this path.
    pub fn new(alloc: Global, path: &str) -> Result<PathText, OutOfMemory>
        ensures { IfOk result (λ p. p ≡ path.now) }
    {
        Ok(PathText {
            text: String::from_str(alloc, path)?,
        })
    }

    /// The path.
    pub fn as_str(&self) -> &str
        ensures { result.now ≡ self.now }
    {
        self.text.as_str()
    }
}

/// A file that is opened at its first read. What it holds is not told: contracts see it as the
/// count of its faults, an opening that fails among them.
#[derive(Drop)]
pub struct LazyFile<'a, R: Files> {
    rt: &'a R,
    path: PathText,
    file: Option<R::File>,
    faults: u64,
}

impl<'a, R: Files> Model for LazyFile<'a, R> {
    ghost use Rattle.std.specs.Prelude.{ℕ};

    ghost Value = { ℕ };

    ghost view = { λ s. s.faults };
}

impl<'a, R: Files> LazyFile<'a, R> {
    /// The file of this path, not yet opened.
    pub fn new(rt: &'a R, path: PathText) -> LazyFile<'a, R>
        ensures no_fault { result ≡ 0 }
    {
        LazyFile {
            rt,
            path,
            file: None,
            faults: 0,
        }
    }

    /// How many reads failed.
    pub fn fault_count(&self) -> u64
        ensures { result ≡ self.now }
    {
        self.faults
    }
}

impl<'a, R: Files> Source for LazyFile<'a, R> {
    ghost left = { λ _. None };

    ghost faults = { λ faults. faults };

    fn read(&mut self, buf: &mut [u8]) -> Result<usize, SourceFailed> {
        if self.file.is_none() {
            self.file = fs::open(self.rt, self.path.as_str()).ok();
        }
        if let Some(file) = &mut self.file
            && let Ok(count) = file.read(buf)
        {
            return Ok(count);
        }
        self.faults = self.faults.saturating_add(1);
        Err(SourceFailed)
    }
}

/// Standard output. It holds up to 16 KiB of what is put, and writes them when it is full or is to
/// pass them on. What it shows is not told: contracts see it as the counts of its puts and of its
/// faults.
#[derive(Drop)]
pub struct StdSink<'a, R: Print> {
    rt: &'a R,
    held: HeldOctets,
    puts: u64,
    faults: u64,
}

impl<'a, R: Print> Model for StdSink<'a, R> {
    ghost use Rattle.tte_io.specs.PutCounts.{PutCounts};

    ghost Value = { PutCounts };

    ghost view = { λ s. record { puts = s.puts; faults = s.faults } };
}

impl<'a, R: Print> StdSink<'a, R> {
    /// Standard output.
    pub fn new(rt: &'a R) -> StdSink<'a, R>
        ensures none { result ≡ record { puts = 0; faults = 0 } }
    {
        StdSink {
            rt,
            held: HeldOctets::new(),
            puts: 0,
            faults: 0,
        }
    }

    /// How many calls failed.
    pub fn fault_count(&self) -> u64
        ensures { result ≡ self.now.faults }
    {
        self.faults
    }

    /// What a call answers, by whether it went well. One that did not is counted.
    fn answer(&mut self, well: bool) -> Result<(), SinkFailed>
        ensures puts { self.new.puts ≡ self.old.puts }
        ensures never_falls { self.old.faults ≤ self.new.faults }
        ensures ok_unchanged { OnOk result (self.new.faults ≡ self.old.faults) }
        ensures failed_rose { OnErr result (Rose self.old.faults self.new.faults) }
        ensures well { OnErr result (well ≡ false) }
    {
        if well {
            return Ok(());
        }
        self.faults = self.faults.saturating_add(1);
        Err(SinkFailed)
    }
}

impl<'a, R: Print> Sink for StdSink<'a, R> {
    ghost written = { λ _. None };

    ghost passed = { λ _. None };

    ghost puts = { λ s. s.puts };

    ghost faults = { λ s. s.faults };

    fn put(&mut self, bytes: &[u8]) -> Result<(), SinkFailed> {
        self.puts = self.puts.saturating_add(1);
        let well = self.held.take(self.rt, bytes);
        self.answer(well)
    }

    fn pass_on(&mut self) -> Result<(), SinkFailed> {
        let well = self.held.write_out(self.rt);
        self.answer(well)
    }
}
