// The two rows of children: what an And and an Or do differently.
ghost use Rattle.std.specs.Prelude.{◌≡◌};
ghost use Rattle.normal.specs.Bench.{kind_of};
ghost use Rattle.normal.specs.Rows.{starts, ends, keeps};

use crate::bench::Form;
use terms::strict::StrictNorm;

#[derive(Clone, Copy, Debug, PartialEq, Eq)]
pub enum Row {
    And,
    Or,
}

impl Row {
    // The mark that a child starts with.
    pub(crate) fn starts(self, entry: StrictNorm, run: StrictNorm) -> StrictNorm
        ensures { result ≡ starts self entry run }
    {
        match self {
            Row::And => run,
            Row::Or => entry,
        }
    }

    // The mark that the row comes back with.
    pub(crate) fn ends(self, entry: StrictNorm, run: StrictNorm) -> StrictNorm
        ensures { result ≡ ends self entry run }
    {
        match self {
            Row::And => entry,
            Row::Or => run,
        }
    }

    // Whether a child stays, where a command may have been seen.
    pub(crate) fn keeps(self, form: Form, seen: bool) -> bool
        ensures { result ≡ keeps self seen (kind_of form) }
    {
        match (self, form) {
            (_, Form::Skip) => false,
            (Row::And, _) => true,
            (Row::Or, _) => !(seen && form.is_command()),
        }
    }
}
