//! Tests of hints: the forms of the usage line, and why a file cannot be read. What standard error tells is tested in
//! `examples/cases`.

use crate::calls::try_call;
use std::io::ErrorKind;
use std::test::Fail;
use tte_hints::{Program, Unread, forms_of};
use tte_run::Status;
use worked_network::call_of_one;

#[test]
fn the_forms_are_those_of_the_usage_line(rt: HostRuntime) -> Result<(), Fail> {
    let alloc = rt.alloc();
    let mut usage = String::from_str(alloc, "usage: tte")?;
    let mut between = " ";
    for form in forms_of(Program::Tte) {
        usage = format!(in alloc; "{usage}{between}{form}")?;
        between = " | ";
    }
    usage.push_str("\n")?;
    let call = call_of_one(&[], &[], usage.as_str(), Status::Usage);
    try_call(&rt, alloc, &call)
}

// Paths that can't be read, by the kind of the error, and what is told of them.
const UNREAD: &[(&str, ErrorKind, Unread)] = &[
    ("no.toml", ErrorKind::NotFound, Unread::Absent),
    ("n.toml/x", ErrorKind::NotADirectory, Unread::Absent),
    ("-", ErrorKind::NotFound, Unread::Dash),
    ("-", ErrorKind::PermissionDenied, Unread::Forbidden),
    ("", ErrorKind::NotFound, Unread::NoPath),
    ("dir", ErrorKind::IsADirectory, Unread::Directory),
    ("n.toml", ErrorKind::PermissionDenied, Unread::Forbidden),
    ("n.toml", ErrorKind::TimedOut, Unread::Failed),
];

#[test]
fn why_a_file_cannot_be_read_is_told(rt: HostRuntime) {
    for (path, kind, why) in UNREAD {
        assert_eq!(rt; Unread::of(path, *kind), *why);
    }
}
