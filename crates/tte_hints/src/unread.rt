use std::fs;
use std::io::{ErrorKind, Read};
use std::rt::Files;

/// Why a file can't be read.
#[derive(Clone, Copy, Debug, PartialEq, Eq)]
pub enum Unread {
    Absent,
    Dash,
    NoPath,
    Directory,
    Forbidden,
    Failed,
}

impl Unread {
    /// What is told of it.
    pub fn text(self) -> &'static str {
        match self {
            Unread::Absent => "there is no such file",
            Unread::Dash => "no file has this name; standard input is /dev/stdin",
            Unread::NoPath => "its path is empty",
            Unread::Directory => "it is a directory",
            Unread::Forbidden => "you have no right to read it",
            Unread::Failed => "a read failed",
        }
    }

    /// What an error of this kind tells of the file at a path.
    pub fn of(path: &str, kind: ErrorKind) -> Unread {
        match kind {
            ErrorKind::NotFound if path.is_empty() => Unread::NoPath,
            ErrorKind::NotFound if path == "-" => Unread::Dash,
            ErrorKind::NotFound | ErrorKind::NotADirectory => Unread::Absent,
            ErrorKind::IsADirectory => Unread::Directory,
            ErrorKind::PermissionDenied => Unread::Forbidden,
            _ => Unread::Failed,
        }
    }

    /// Why the file at a path can't be read, as far as it tells when it is asked again.
    pub fn why<R: Files>(rt: &R, path: &str) -> Unread {
        match rt.metadata(path) {
            Ok(found) if found.is_dir() => Unread::Directory,
            Ok(found) if found.is_file() => match fs::open(rt, path) {
                Ok(_) => Unread::Failed,
                Err(error) => Unread::of(path, error.kind()),
            },
            Ok(_) => Unread::Failed,
            Err(error) => Unread::of(path, error.kind()),
        }
    }
}

/// The path itself where a regular file stands there, and else the empty one, where none does: what came through a
/// pipe can't be read again.
pub(crate) fn path_again<'a, R: Files>(rt: &R, path: &'a str) -> &'a str {
    match rt.metadata(path) {
        Ok(found) if found.is_file() => path,
        _ => "",
    }
}
