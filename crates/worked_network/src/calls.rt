ghost use Rattle.std.specs.Prelude.{◌≤◌};

use std::alloc::Global;
use tte_forms::{Status, Words};
use tte_io::{MemorySink, MemorySource, OutOfMemory};

/// What fails in a call, by its number from 1 among its like.
#[derive(Clone, Copy)]
pub enum Fails {
    Nothing,
    /// A read of the first file.
    First(u32),
    /// A read of the second.
    Second(u32),
    Put(u32),
    /// A call to pass on what was put.
    Pass(u32),
}

/// A call of a program: its words, its two files, what fails, and what it answers.
#[derive(Clone, Copy)]
pub struct Call<'a> {
    pub words: &'a [&'a str],
    pub first: &'a [u8],
    /// None where no second file may be read: its first read would fail.
    pub second: Option<&'a [u8]>,
    pub fails: Fails,
    pub text: &'a str,
    pub status: Status,
}

/// A call with one file, in which nothing fails.
pub fn call_of_one<'a>(
    words: &'a [&'a str],
    file: &'a [u8],
    text: &'a str,
    status: Status,
) -> Call<'a> {
    Call {
        words,
        first: file,
        second: None,
        fails: Fails::Nothing,
        text,
        status,
    }
}

/// A call with two files, in which nothing fails.
pub fn call_of_two<'a>(
    words: &'a [&'a str],
    files: (&'a [u8], &'a [u8]),
    text: &'a str,
    status: Status,
) -> Call<'a> {
    Call {
        second: Some(files.1),
        ..call_of_one(words, files.0, text, status)
    }
}

/// At most eight words.
pub fn words_of(alloc: Global, texts: &[&str]) -> Result<Words, OutOfMemory> {
    let mut words = Words::new(alloc);
    for text in texts {
        if words.len() < 8 {
            words.push(text)?;
        }
    }
    Ok(words)
}

// How many octets of a file come at once.
fn piece_of(file: &[u8]) -> u32
    ensures { 1 ≤ result }
{
    if file.len() > 1 << 20 { 4096 } else { 17 }
}

/// The words of a call, its two files as sources, and a sink with room for its answer and more.
pub fn ends_of(
    alloc: Global,
    call: &Call<'_>,
) -> Result<(Words, MemorySource, MemorySource, MemorySink), OutOfMemory> {
    let (first, second, put, pass) = match call.fails {
        Fails::Nothing => (0, 0, 0, 0),
        Fails::First(number) => (number, 0, 0, 0),
        Fails::Second(number) => (0, number, 0, 0),
        Fails::Put(number) => (0, 0, number, 0),
        Fails::Pass(number) => (0, 0, 0, number),
    };
    let (octets, second) = match call.second {
        Some(octets) => (octets, second),
        None => (&[][..], 1),
    };
    let room = call.text.len() as u64 + 4096;
    Ok((
        words_of(alloc, call.words)?,
        MemorySource::new(alloc, call.first, piece_of(call.first), &[first])?,
        MemorySource::new(alloc, octets, piece_of(octets), &[second])?,
        MemorySink::with_failing_passes(alloc, room, &[put], &[pass])?,
    ))
}
