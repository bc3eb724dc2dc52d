use tte_forms::number_up_to;

/// How many octets a name has at most.
const LONGEST_NAME: usize = 16;

/// The words of units of time, and how many of each are at most 2^64 - 1 units of 2^-16 ns.
const UNITS: &[(&str, u64)] = &[
    ("ns", u64::MAX / 65_536),
    ("us", u64::MAX / 65_536_000),
    ("ms", u64::MAX / 65_536_000_000),
];

/// The rules that are inequalities, of which `slack` tells all places.
const INEQUALITIES: &[&str] = &["8", "9", "10", "11", "12", "13", "21", "23"];

/// What the word of an argument stands for.
#[derive(Clone, Copy)]
pub(crate) enum ArgumentKind {
    Capture,
    Trace,
    Report,
    Messages,
    OtherFile,
    Link,
    VirtualLink,
    /// A number from the first to the second.
    Number(u64, u64),
    /// When a part of a run begins or ends.
    Time,
    Way,
    /// The number of a rule that is an inequality.
    Rule,
    /// The name of a virtual link or of a device, which does not read as a time.
    Name,
    /// The same, or one that does.
    AnyName,
}

/// An argument behind a command.
#[derive(Clone, Copy)]
pub struct Argument {
    /// Its name in the usage line.
    pub name: &'static str,
    /// What it must be.
    pub must_be: &'static str,
    pub(crate) kind: ArgumentKind,
}

const A_FILE: &str = "the path of a file";

const A_TIME: &str =
    "a whole number of units of 2^-16 ns (65536000 to the microsecond), or of ns, us or ms with that word right behind \
     it, with no sign and no leading zero";

impl Argument {
    /// A file of protocol control frames.
    pub const FRAMES: Argument = Argument {
        name: "FILE",
        must_be: A_FILE,
        kind: ArgumentKind::OtherFile,
    };

    /// A capture of packets.
    pub const CAPTURE: Argument = Argument {
        name: "FILE",
        must_be: A_FILE,
        kind: ArgumentKind::Capture,
    };

    pub const NETWORK: Argument = Argument {
        name: "NETWORK",
        must_be: A_FILE,
        kind: ArgumentKind::OtherFile,
    };

    pub const TRACE: Argument = Argument {
        name: "TRACE",
        must_be: A_FILE,
        kind: ArgumentKind::Trace,
    };

    pub const REPORT: Argument = Argument {
        name: "REPORT",
        must_be: A_FILE,
        kind: ArgumentKind::Report,
    };

    pub const MESSAGES: Argument = Argument {
        name: "MESSAGES",
        must_be: A_FILE,
        kind: ArgumentKind::Messages,
    };

    /// The number that a storm is drawn from.
    pub const SEED: Argument = Argument {
        name: "SEED",
        must_be: "a whole number from 0 to 18446744073709551615, with no sign and no leading zero",
        kind: ArgumentKind::Number(0, u64::MAX),
    };

    /// How many cycles a storm lasts.
    pub const CYCLES: Argument = Argument {
        name: "CYCLES",
        must_be: "a whole number from 1 to 100000, with no sign and no leading zero",
        kind: ArgumentKind::Number(1, 100_000),
    };

    /// The granule of stamps, in units of 2^-16 ns.
    pub const GRANULE: Argument = Argument {
        name: "GRANULE",
        must_be: "a whole number of units of 2^-16 ns (65536000 to the microsecond) from 1 to 2^60, with no sign, no \
                  leading zero and no other unit",
        kind: ArgumentKind::Number(1, 1 << 60),
    };

    pub const LINK: Argument = Argument {
        name: "LINK",
        must_be: "the name of a link",
        kind: ArgumentKind::Link,
    };

    pub const WAY: Argument = Argument {
        name: "WAY",
        must_be: "up or down",
        kind: ArgumentKind::Way,
    };

    pub const VIRTUAL_LINK: Argument = Argument {
        name: "VL",
        must_be: "the name of a virtual link",
        kind: ArgumentKind::VirtualLink,
    };

    /// The number of a rule.
    pub const RULE: Argument = Argument {
        name: "RULE",
        must_be: "8, 9, 10, 11, 12, 13, 21 or 23, the rules that are inequalities",
        kind: ArgumentKind::Rule,
    };

    /// The number of a record.
    pub const RECORD: Argument = Argument {
        name: "N",
        must_be: "the number of a record, from 1, with no sign and no leading zero",
        kind: ArgumentKind::Number(1, u64::MAX),
    };

    /// The number of a cycle that is drawn.
    pub const CYCLE: Argument = Argument {
        name: "CYCLE",
        must_be: "the number of a cycle, from 0 to 1048576, with no sign, no leading zero and no unit",
        kind: ArgumentKind::Number(0, 1 << 20),
    };

    /// Where a part of a run begins.
    pub const FROM: Argument = Argument {
        name: "FROM",
        must_be: A_TIME,
        kind: ArgumentKind::Time,
    };

    /// Where it ends.
    pub const TO: Argument = Argument {
        name: "TO",
        must_be: A_TIME,
        kind: ArgumentKind::Time,
    };

    /// The name of a virtual link or of a device, which does not read as a time.
    pub const NAME: Argument = Argument {
        name: "NAME",
        must_be: "the name of a virtual link or of a device, or a time, where FROM stands in the place of CYCLE",
        kind: ArgumentKind::Name,
    };

    /// The same, or one that does.
    pub const ANY_NAME: Argument = Argument {
        name: "NAME",
        must_be: "the name of a virtual link or of a device",
        kind: ArgumentKind::AnyName,
    };

    /// Whether the text may stand for it.
    pub fn admits(&self, text: &str) -> bool {
        match self.kind {
            ArgumentKind::Number(least, most) => is_within(least, most, text),
            ArgumentKind::Time => is_time(text),
            ArgumentKind::Name => is_name(text) && !reads_as_time(text),
            ArgumentKind::AnyName => is_name(text),
            ArgumentKind::Way => text == "up" || text == "down",
            ArgumentKind::Rule => is_inequality(text),
            ArgumentKind::Capture
            | ArgumentKind::Trace
            | ArgumentKind::Report
            | ArgumentKind::Messages
            | ArgumentKind::OtherFile
            | ArgumentKind::Link
            | ArgumentKind::VirtualLink => true,
        }
    }
}

/// Whether the text is the decimal of a number from `least` to `most`.
fn is_within(least: u64, most: u64, text: &str) -> bool {
    match number_up_to(most, text) {
        Some(number) => least <= number,
        None => false,
    }
}

/// Whether the text is the number of a rule that is an inequality.
fn is_inequality(text: &str) -> bool {
    for rule in INEQUALITIES {
        if *rule == text {
            return true;
        }
    }
    false
}

/// The text without the word of a unit at its end, and the greatest number that may stand before that.
fn without_unit(text: &str) -> (&str, u64) {
    for (word, most) in UNITS {
        if let Some(digits) = text.strip_suffix(*word) {
            return (digits, *most);
        }
    }
    (text, u64::MAX)
}

/// Whether the text is a number of units, or of ns, us or ms with that word right behind it.
fn is_time(text: &str) -> bool {
    let (digits, most) = without_unit(text);
    number_up_to(most, digits).is_some()
}

/// Whether there are digits, with the word of a unit behind them or without.
fn reads_as_time(text: &str) -> bool {
    let (digits, _) = without_unit(text);
    !digits.is_empty() && digits.as_bytes().iter().all(u8::is_ascii_digit)
}

/// Whether an octet may stand in a name.
fn is_in_names(octet: &u8) -> bool {
    octet.is_ascii_lowercase() || octet.is_ascii_digit() || *octet == b'_'
}

/// Whether the text is one of names.
fn is_name(text: &str) -> bool {
    !text.is_empty() && text.len() <= LONGEST_NAME && text.as_bytes().iter().all(is_in_names)
}
