// The normal form of a root.
ghost use Rattle.std.specs.Prelude.{◌≡◌, ◌-◌, length, IfOk, MatchResult};
ghost use Rattle.rules.specs.Sound.{Sound};
ghost use Rattle.rules.specs.Tree.{tree_at};
ghost use Rattle.rules.specs.NormalForm.{normal};
ghost use Rattle.meta.specs.Rejections.{answer_of, by_rule};
ghost use Rattle.normal.specs.Held.{tree_held};
ghost use Rattle.normal.specs.Calls.{refusal_of, normal_entries, HoldsNormal};

use crate::bench::Bench;
use crate::walk::Walk;
use meta::book::Book;
use meta::rejection::{Fault, Rejection};

// Puts the normal form of a root, for usage or not, in place of what the bench holds, and answers
// where its top is.
pub fn normalise(
    book: &Book,
    root: usize,
    for_usage: bool,
    bench: &mut Bench,
) -> Result<usize, Rejection>
    ensures value { answer_of result
        ≡ by_rule (refusal_of book.now root bench.old.places)
        (length (normal_entries book.now root for_usage) - 1) }
    ensures items { MatchResult result (HoldsNormal book.now bench.new root for_usage)
        (λ _. bench.new ≡ bench.old) }
    ensures tree { IfOk result (λ at. tree_held book.now bench.new at
        ≡ normal for_usage (tree_at book.now root)) }
    ensures same { bench.new.places ≡ bench.old.places }
    ensures memory { bench.new.capacity ≡ bench.old.capacity }
    ensures sound { Sound book.now }
{
    if root >= book.len() {
        return Err(Rejection::of(Fault::NoNode, root));
    }
    if bench.places() < 3 * book.len() + 2 {
        return Err(Rejection::of(Fault::Bench, root));
    }
    // A book has at most 256 nodes, so the root's number fits.
    Walk { book, for_usage }.root(root as u16, bench);
    Ok(bench.len() - 1)
}
