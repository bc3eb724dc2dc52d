use crate::{Argument, Program};
use std::fmt;

/// A command and the arguments behind it.
#[derive(Clone, Copy)]
pub struct CommandForm(&'static str, &'static [Argument]);

/// The forms of `tte`.
const TTE: &[CommandForm] = &[
    CommandForm("show", &[Argument::FRAMES]),
    CommandForm("check", &[Argument::NETWORK]),
    CommandForm("run", &[Argument::NETWORK, Argument::TRACE]),
    CommandForm(
        "storm",
        &[Argument::NETWORK, Argument::SEED, Argument::CYCLES],
    ),
    CommandForm(
        "stamp",
        &[Argument::NETWORK, Argument::TRACE, Argument::GRANULE],
    ),
    CommandForm("audit", &[Argument::NETWORK, Argument::REPORT]),
    CommandForm("capture", &[Argument::CAPTURE]),
    CommandForm(
        "wire",
        &[
            Argument::NETWORK,
            Argument::TRACE,
            Argument::LINK,
            Argument::WAY,
        ],
    ),
    CommandForm(
        "vote",
        &[
            Argument::NETWORK,
            Argument::TRACE,
            Argument::VIRTUAL_LINK,
            Argument::VIRTUAL_LINK,
            Argument::VIRTUAL_LINK,
        ],
    ),
];

/// The forms of `lens`. Those of one command stand by their length, the shorter first.
const LENS: &[CommandForm] = &[
    CommandForm("slack", &[Argument::NETWORK]),
    CommandForm("slack", &[Argument::NETWORK, Argument::RULE]),
    CommandForm("least", &[Argument::NETWORK]),
    CommandForm("sheet", &[Argument::NETWORK]),
    CommandForm("plan", &[Argument::NETWORK, Argument::MESSAGES]),
    CommandForm("latency", &[Argument::NETWORK]),
    CommandForm("latency", &[Argument::NETWORK, Argument::REPORT]),
    CommandForm(
        "why",
        &[Argument::NETWORK, Argument::REPORT, Argument::RECORD],
    ),
    CommandForm("draw", &[Argument::NETWORK]),
    CommandForm("draw", &[Argument::NETWORK, Argument::REPORT]),
    CommandForm(
        "draw",
        &[Argument::NETWORK, Argument::REPORT, Argument::CYCLE],
    ),
    CommandForm(
        "draw",
        &[
            Argument::NETWORK,
            Argument::REPORT,
            Argument::CYCLE,
            Argument::NAME,
        ],
    ),
    CommandForm(
        "draw",
        &[
            Argument::NETWORK,
            Argument::REPORT,
            Argument::FROM,
            Argument::TO,
        ],
    ),
    CommandForm(
        "draw",
        &[
            Argument::NETWORK,
            Argument::REPORT,
            Argument::FROM,
            Argument::TO,
            Argument::ANY_NAME,
        ],
    ),
    CommandForm("page", &[Argument::NETWORK, Argument::REPORT]),
    CommandForm("clocks", &[Argument::NETWORK, Argument::REPORT]),
    CommandForm("flows", &[Argument::NETWORK, Argument::REPORT]),
    CommandForm(
        "events",
        &[Argument::NETWORK, Argument::SEED, Argument::CYCLES],
    ),
];

/// The forms of a program's command lines.
pub fn forms_of(program: Program) -> &'static [CommandForm] {
    match program {
        Program::Tte => TTE,
        Program::Lens => LENS,
    }
}

impl CommandForm {
    /// The command.
    pub fn command(self) -> &'static str {
        self.0
    }

    /// The arguments behind it.
    pub fn arguments(self) -> &'static [Argument] {
        self.1
    }
}

impl fmt::Display for CommandForm {
    fn fmt<W: fmt::Write>(&self, f: &mut fmt::Formatter<W>) -> fmt::Result {
        f.write_str(self.0)?;
        for argument in self.1 {
            f.write_str(" ")?;
            f.write_str(argument.name)?;
        }
        Ok(())
    }
}
