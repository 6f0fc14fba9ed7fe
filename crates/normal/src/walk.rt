// The walk over a book's nodes that puts their normal form on a bench.
ghost use Rattle.std.specs.Prelude.{◌≡◌, ◌*◌, ◌<◌, ◌≤◌, min, length};
ghost use Rattle.rules.specs.Plain.{Plain};
ghost use Rattle.rules.specs.Tree.{tree_at};
ghost use Rattle.rules.specs.Weight.{weight};
ghost use Rattle.meta.specs.Decoded.{AllBelow};
ghost use Rattle.normal.specs.Held.{held, Room, Grows, IsClosed};
ghost use Rattle.normal.specs.Rows.{row_at, tree_of, ends, closed, most_closed};
ghost use Rattle.normal.specs.Walks.{Walks};
ghost use Rattle.normal.specs.Calls.{normal_entries};
ghost use Rattle.normal.specs.Places.{most};

use crate::bench::{Bench, Form};
use crate::name::one_named;
use crate::row::Row;
use meta::book::Book;
use meta::item::Meta;
use terms::strict::StrictNorm;

// A book whose nodes are put in normal form, for usage or not.
#[derive(Clone, Copy)]
pub struct Walk<'a> {
    pub book: &'a Book,
    pub for_usage: bool,
}

impl<'a> Walk<'a> {
    // Puts the normal form of the tree at `root`, as a root, in place of what the bench holds.
    pub(crate) fn root(&self, root: u16, bench: &mut Bench)
        requires within { root < length self.now.book.now.nodes }
        requires room { 3 * weight (tree_at self.now.book.now root)
            ≤ min bench.old.places most }
        ensures nodes { held self.now.book.now bench.new
            ≡ normal_entries self.now.book.now root self.now.for_usage }
        ensures same { bench.new.places ≡ bench.old.places }
        ensures memory { bench.new.capacity ≡ bench.old.capacity }
    {
        bench.clear();
        let back = self.node(root, StrictNorm::Pull, bench);
        bench.bare();
        bench.wrap(0, StrictNorm::Pull, back);
    }

    // Puts the normal form of the node `n` at the bench's end, and answers the mark that it comes back
    // with, which is a value of the rules' own walk. A number comes from a node's children, so that it is
    // a node is asked of the caller.
    #[cycle(walk)]
    fn node(&self, n: u16, mark: StrictNorm, bench: &mut Bench) -> StrictNorm
        requires within { n < length self.now.book.now.nodes }
        requires room { Room bench.old (3 * weight (tree_at self.now.book.now n)) }
        ensures { Walks self.now.book.now bench.old bench.new
            (tree_at self.now.book.now n)
            self.now.for_usage mark result }
    {
        let start = bench.len();
        match self.book.meta(n) {
            // Not met, since `n` is a node.
            None => mark,
            Some(Meta::Skip) => {
                bench.leaf(Form::Skip);
                mark
            }
            Some(Meta::Item(item)) => {
                let item = one_named(item, self.for_usage);
                bench.leaf(Form::Item { node: n, item });
                mark
            }
            Some(Meta::And(children)) => self.row(Row::And, n, children, mark, bench),
            Some(Meta::Or(children)) => self.row(Row::Or, n, children, mark, bench),
            Some(Meta::Adjacent(child) | Meta::Subsection(child, _) | Meta::Suffix(child, _)) => {
                self.node(child, mark, bench)
            }
            Some(Meta::Strict(child)) => self.node(child, mark, bench).push(),
            // Four kinds take a step behind their child; a table of the steps would be no plainer.
            Some(Meta::CustomUsage(child, note)) => {
                let back = self.node(child, mark, bench);
                if self.for_usage {
                    bench.custom(start, self.book, note);
                }
                back
            }
            Some(Meta::Many(child)) => {
                let back = self.node(child, mark, bench);
                bench.many(start);
                back
            }
            Some(Meta::Required(child)) => {
                let back = self.node(child, mark, bench);
                bench.required(start);
                back
            }
            Some(Meta::Optional(child)) => {
                let back = self.node(child, mark, bench);
                bench.optional(start);
                back
            }
        }
    }

    // Puts the normal form of a row over `children`, which are below `n`, at the bench's end.
    #[cycle(walk)]
    fn row(
        &self,
        row: Row,
        n: u16,
        children: &[u16],
        mark: StrictNorm,
        bench: &mut Bench,
    ) -> StrictNorm
        requires below { AllBelow n children.now }
        requires within { n < length self.now.book.now.nodes }
        requires room { Room bench.old
            (3 * weight (tree_of row (row_at self.now.book.now children.now))) }
        ensures { Walks self.now.book.now bench.old bench.new
            (tree_of row (row_at self.now.book.now children.now))
            self.now.for_usage mark result }
    {
        let start = bench.len();
        let mut run = mark;
        let mut seen = false;
        let mut kept: u16 = 0;
        for child in children {
            let at = bench.len();
            let back = self.node(*child, row.starts(mark, run), bench);
            bench.wrap(at, run, back);
            run = run.next(back);
            let form = bench.top();
            if row.keeps(form, seen) {
                kept += 1;
            } else {
                bench.cut(at);
            }
            seen |= form.is_command();
        }
        close_row(bench, row, start, kept, mark, run)
    }
}

// Closes a row with `kept` children, which stand from `start` on, and answers the mark that it comes back with: it
// began with `mark`, and `run` is the running mark behind its children. Apart from `row`, so that the check proves
// each way out of it without a hand-written answer.
fn close_row(
    bench: &mut Bench,
    row: Row,
    start: usize,
    kept: u16,
    mark: StrictNorm,
    run: StrictNorm,
) -> StrictNorm
    requires { Room bench.old (most_closed row) }
    ensures tree { (p : Plain) → IsClosed p bench.old bench.new start kept (closed row) }
    ensures room { Grows bench.old bench.new (most_closed row) }
    ensures mark { result ≡ ends row mark run }
{
    bench.close(row, start, kept);
    row.ends(mark, run)
}
