use crate::networks::joined;
use std::alloc::{AllocError, Global};

/// An old text, which stands in a text once, and a new one in its place.
pub type Edit<'a> = (&'a str, &'a str);

/// Why a text was not edited.
#[derive(Debug, Drop)]
pub enum Misfit {
    OutOfMemory,
    /// The old text stands there not at all, or more than once.
    NotOnce,
    /// A row has no bar.
    NoBar,
}

impl From<AllocError> for Misfit {
    fn from(_: AllocError) -> Misfit {
        Misfit::OutOfMemory
    }
}

/// The text with these edits, one after another.
pub fn edited(alloc: Global, text: &str, edits: &[Edit<'_>]) -> Result<String, Misfit> {
    let mut text = String::from_str(alloc, text)?;
    for (old, new) in edits {
        text = with_edit(alloc, text.as_str(), old, new)?;
    }
    Ok(text)
}

/// The text with the edit of a row: an old text, a bar, and the new one in its place.
pub fn edited_by(alloc: Global, text: &str, row: &str) -> Result<String, Misfit> {
    match row.split_once(" | ") {
        Some((old, new)) => with_edit(alloc, text, old, new),
        None => Err(Misfit::NoBar),
    }
}

fn with_edit(alloc: Global, text: &str, old: &str, new: &str) -> Result<String, Misfit> {
    match text.split_once(old) {
        Some((front, back)) if !back.contains(old) => Ok(joined(alloc, &[front, new, back])?),
        _ => Err(Misfit::NotOnce),
    }
}
