/// Which of the two programs was called.
#[derive(Clone, Copy)]
pub enum Program {
    Tte,
    Lens,
}

impl Program {
    /// Its name.
    pub fn name(self) -> &'static str {
        match self {
            Program::Tte => "tte",
            Program::Lens => "lens",
        }
    }

    /// The other one.
    pub fn other(self) -> Program {
        match self {
            Program::Tte => Program::Lens,
            Program::Lens => Program::Tte,
        }
    }
}
