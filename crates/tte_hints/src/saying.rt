//! How texts are made: each `{}` of a text is filled by what is given for it.

use std::alloc::Global;

/// What stands in the place of a `{}`.
#[derive(Clone, Copy)]
pub(crate) enum Hole<'a> {
    Text(&'a str),
    Count(u64),
    Number(i64),
}

/// Adds what stands in a hole to a text.
fn push(alloc: Global, text: &mut String, hole: Hole<'_>) -> Option<()> {
    let digits = match hole {
        Hole::Text(words) => return text.push_str(words).ok(),
        Hole::Count(count) => format!(in alloc; "{count}"),
        Hole::Number(number) => format!(in alloc; "{number}"),
    };
    text.push_str(digits.ok()?.as_str()).ok()
}

/// The text with each `{}` filled by the next of the holes. None where memory runs out.
pub(crate) fn filled(alloc: Global, text: &str, holes: &[Hole<'_>]) -> Option<String> {
    let mut filled = String::new(alloc);
    let mut holes = holes.iter();
    for part in text.split("{}") {
        filled.push_str(part).ok()?;
        if let Some(hole) = holes.next() {
            push(alloc, &mut filled, *hole)?;
        }
    }
    Some(filled)
}
