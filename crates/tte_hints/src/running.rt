use crate::hinting::{Called, hint};
use crate::unread::path_again;
use crate::{Program, Unread};
use std::alloc::Global;
use std::env;
use std::io::ErrorKind;
use std::os::unix::fs::FileTypeExt;
use std::process::ExitCode;
use std::rt::{Env, Files};
use tte_forms::{Status, Words};
use tte_io::{LazyFile, OutOfMemory, PathText, Sink, Source, StdSink};

/// No form has as many words.
const MOST_WORDS: u32 = 8;

/// A program, by what it answers.
pub trait Answers {
    /// Which one it is.
    fn program() -> Program;

    /// Answers the words, with `first` as the file that word 2 names and `second` as the one that word 3 names, and
    /// writes to `out`.
    fn answer<A: Source, B: Source, K: Sink>(
        alloc: Global,
        words: &Words,
        first: &mut A,
        second: &mut B,
        out: &mut K,
    ) -> Status;
}

/// The words of the command line without the program's name.
#[derive(Drop)]
struct CommandLine {
    words: Words,
    /// Whether they are UTF-8. Where they are not, none is here.
    is_text: bool,
}

/// Takes the words of the command line.
fn take_words<R: Env + Alloc>(rt: &R, alloc: Global) -> Result<CommandLine, OutOfMemory> {
    let mut words = Words::new(alloc);
    let args = match env::args(rt) {
        Ok(args) => args,
        Err(error) if error.kind() == ErrorKind::OutOfMemory => return Err(OutOfMemory),
        Err(_) => {
            return Ok(CommandLine {
                words,
                is_text: false,
            });
        }
    };
    for word in args.skip(1) {
        if words.len() < MOST_WORDS {
            words.push(word.as_str())?;
        }
    }
    Ok(CommandLine {
        words,
        is_text: true,
    })
}

/// How a call ended.
#[derive(Clone, Copy)]
struct Ended<'x> {
    status: Status,
    /// The path of the file that a read failed of, if one did.
    unread: &'x str,
}

/// Answers the words of a call over real files and standard output.
fn answer_call<'x, P: Answers, R: Files + Print>(
    rt: &R,
    alloc: Global,
    called: Called<'x>,
) -> Result<Ended<'x>, OutOfMemory> {
    let mut first = LazyFile::new(rt, PathText::new(alloc, called.first_path())?);
    let mut second = LazyFile::new(rt, PathText::new(alloc, called.second_path())?);
    let mut out = StdSink::new(rt);
    let status = P::answer(alloc, called.words, &mut first, &mut second, &mut out);
    let unread = if first.fault_count() > 0 {
        called.first_path()
    } else {
        called.second_path()
    };
    Ok(Ended { status, unread })
}

/// Whether standard output is a pipe. A write to one fails where the other end is closed, as that of `head` is.
fn writes_to_pipe<R: Files>(rt: &R) -> bool {
    match rt.metadata("/dev/stdout") {
        Ok(found) => found.file_type().is_fifo(),
        Err(_) => false,
    }
}

/// What is to be said of a call that ended so, from its files, read once more.
fn hint_of<R: Files>(
    rt: &R,
    alloc: Global,
    called: Called<'_>,
    status: Status,
) -> Result<Option<String>, OutOfMemory> {
    let first = path_again(rt, called.first_path());
    let second = path_again(rt, called.second_path());
    let mut first = LazyFile::new(rt, PathText::new(alloc, first)?);
    let mut second = LazyFile::new(rt, PathText::new(alloc, second)?);
    Ok(hint(alloc, called, status, &mut first, &mut second))
}

/// Says on standard error why a call ended so, where its answer leaves that open.
fn explain<R: Files + Eprint>(rt: &R, alloc: Global, called: Called<'_>, ended: Ended<'_>) {
    let name = called.program.name();
    let _told = match ended.status {
        Status::Done => Ok(()),
        Status::ReadFault => {
            let path = ended.unread;
            let why = Unread::why(rt, path).text();
            eprintln!(rt; "{name}: cannot read {path}: {why}")
        }
        Status::WriteFault if writes_to_pipe(rt) => Ok(()),
        Status::WriteFault => eprintln!(rt; "{name}: cannot write to standard output"),
        Status::OutOfMemory => eprintln!(rt; "{name}: out of memory"),
        status => match hint_of(rt, alloc, called, status) {
            Ok(Some(hint)) => eprintln!(rt; "{name}: {hint}"),
            Ok(None) | Err(_) => Ok(()),
        },
    };
}

/// Answers the command line of a program, and ends with the status.
pub fn run_program<P: Answers, R: Files + Env + Print + Eprint + Alloc>(
    rt: &R,
    alloc: Global,
) -> ExitCode {
    let name = P::program().name();
    let Ok(line) = take_words(rt, alloc) else {
        let _told = eprintln!(rt; "{name}: out of memory");
        return ExitCode::from(Status::OutOfMemory.number());
    };
    let called = Called {
        program: P::program(),
        words: &line.words,
    };
    let ended = answer_call::<P, R>(rt, alloc, called).unwrap_or(Ended {
        status: Status::OutOfMemory,
        unread: "",
    });
    if line.is_text {
        explain(rt, alloc, called, ended);
    } else {
        let _told = eprintln!(rt; "{name}: an argument of the command line is not UTF-8");
    }
    ExitCode::from(ended.status.number())
}
