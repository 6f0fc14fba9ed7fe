// The mark that a walk carries: where the options of a line end.
ghost use Rattle.std.specs.Prelude.{◌≡◌};

#[derive(Clone, Copy, Debug, PartialEq, Eq)]
pub enum StrictNorm {
    // No Strict so far.
    Pull,
    // A Strict below, over which nothing is put yet.
    Push,
    // A Strict that is put already.
    Strip,
}

impl StrictNorm {
    ghost use Rattle.terms.specs.StrictNorm.{pushed, running};

    // The mark behind a Strict.
    pub fn push(self) -> StrictNorm
        ensures { result ≡ pushed self }
    {
        match self {
            StrictNorm::Pull | StrictNorm::Push => StrictNorm::Push,
            StrictNorm::Strip => StrictNorm::Strip,
        }
    }

    // The running mark behind a child that is back with a mark.
    pub fn next(self, child: StrictNorm) -> StrictNorm
        ensures { result ≡ running self child }
    {
        match (self, child) {
            (StrictNorm::Pull, StrictNorm::Pull) => StrictNorm::Pull,
            (StrictNorm::Push, StrictNorm::Pull | StrictNorm::Push) => StrictNorm::Push,
            _ => StrictNorm::Strip,
        }
    }
}
