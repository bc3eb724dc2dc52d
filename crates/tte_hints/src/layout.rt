use crate::hinting::Called;
use crate::saying::Hole::{Count, Text};
use crate::saying::filled;
use std::alloc::Global;
use tte_io::{LineReader, LineTaken, Source};

/// The octets that some editors put before a text in UTF-8.
const BYTE_ORDER_MARK: &[u8] = &[0xef, 0xbb, 0xbf];

/// The words of a line of messages, which a file has.
const MESSAGE: &str =
    "{}: a line is NAME [id N] length N [ethertype N] period N [phase N] [after T] [by T] from DEVICE \
                       to DEVICE ..";

/// Which octets of a line stand in no file of words with single spaces, whatever its words are.
pub(crate) fn stray_octets(text: &[u8]) -> Option<&'static str> {
    if text.starts_with(BYTE_ORDER_MARK) {
        Some("it begins with a byte order mark; none may stand there")
    } else if text.last() == Some(&b'\r') {
        Some("it ends with CR LF; a line ends with LF alone")
    } else if text.contains(&b'\t') {
        Some("it has a tab; one space stands between two words")
    } else {
        None
    }
}

/// The same of a line of a file that may have comments, which begin with `#`.
fn stray_outside_comments(text: &[u8]) -> Option<&'static str> {
    if text.first() == Some(&b'#') {
        None
    } else {
        stray_octets(text)
    }
}

/// The first line of a file that has such octets, as far as memory goes.
fn stray_line<B: Source>(alloc: Global, second: &mut B) -> Option<String> {
    let mut reader = LineReader::new();
    for number in 1..u32::MAX {
        let Ok(LineTaken::Whole) = reader.next_line(second) else {
            return None;
        };
        if let Some(fault) = stray_outside_comments(reader.text()) {
            return filled(alloc, "line {}: {}", &[Count(number.into()), Text(fault)]);
        }
    }
    None
}

/// The text of a fault of the second file of a call.
pub(crate) fn of_second(alloc: Global, called: Called<'_>, fault: &str) -> Option<String> {
    filled(alloc, "{}, {}", &[Text(called.second_path()), Text(fault)])
}

/// Which line of the report of a call, its second file, is laid out so that it is refused.
pub(crate) fn refused_report<B: Source>(
    alloc: Global,
    called: Called<'_>,
    second: &mut B,
) -> Option<String> {
    let fault = stray_line(alloc, second)?;
    of_second(alloc, called, fault.as_str())
}

/// Which line of the messages of a call, its second file, is laid out so that it is refused, or what a line is.
pub(crate) fn refused_messages<B: Source>(
    alloc: Global,
    called: Called<'_>,
    second: &mut B,
) -> Option<String> {
    match stray_line(alloc, second) {
        Some(fault) => of_second(alloc, called, fault.as_str()),
        None => filled(alloc, MESSAGE, &[Text(called.second_path())]),
    }
}
