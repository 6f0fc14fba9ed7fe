// The rules of the normal form, each at a bench's end.
ghost use Rattle.std.specs.Prelude.{ℕ, true};
ghost use Rattle.rules.specs.Plain.{Plain};
ghost use Rattle.rules.specs.NormalForm.{many_of, required_of, optional_of, custom_of, wrapped, bare as bare_of};
ghost use Rattle.meta.specs.Items.{note_numbered};
ghost use Rattle.normal.specs.Held.{Room, Grows, IsTurned, IsClosed};
ghost use Rattle.normal.specs.Rows.{closed, most_closed};

use crate::bench::{Bench, Form};
use crate::row::Row;
use meta::book::Book;
use terms::strict::StrictNorm;

impl Bench {
    // Puts Many over the tree from `start` on.
    pub(crate) fn many(&mut self, start: usize)
        requires { Room self.old 1 }
        ensures tree { (p : Plain) → IsTurned p self.old self.new start many_of }
        ensures room { Grows self.old self.new 1 }
    {
        if !matches!(self.top(), Form::Skip) {
            self.put(start, Form::Many);
        }
    }

    // Puts Required over an And or an Or.
    pub(crate) fn required(&mut self, start: usize)
        requires { Room self.old 1 }
        ensures tree { (p : Plain) → IsTurned p self.old self.new start required_of }
        ensures room { Grows self.old self.new 1 }
    {
        if matches!(self.top(), Form::And(_) | Form::Or(_)) {
            self.put(start, Form::Required);
        }
    }

    // Puts Optional over the tree, or in place of its Required.
    pub(crate) fn optional(&mut self, start: usize)
        requires { Room self.old 2 }
        ensures tree { (p : Plain) → IsTurned p self.old self.new start optional_of }
        ensures room { Grows self.old self.new 2 }
    {
        match self.top() {
            Form::Skip | Form::Optional => {}
            Form::Required => {
                self.lift();
                self.put(start, Form::Optional);
            }
            Form::Many if matches!(self.second(), Form::Required) => {
                self.lift();
                self.lift();
                self.put(start, Form::Optional);
                self.put(start, Form::Many);
            }
            _ => self.put(start, Form::Optional),
        }
    }

    // Puts a custom usage over the tree; one whose note is blank leaves Skip.
    pub(crate) fn custom(&mut self, start: usize, book: &Book, note: u16)
        requires { Room self.old 1 }
        ensures tree { IsTurned book.now self.old self.new start
            (custom_of true (note_numbered book.now note)) }
        ensures room { Grows self.old self.new 1 }
    {
        if book.is_blank(note) {
            self.cut(start);
            self.leaf(Form::Skip);
        } else {
            self.put(start, Form::CustomUsage(note));
        }
    }

    // Puts Strict over a child that is back with Push, where the running mark is Pull.
    pub(crate) fn wrap(&mut self, start: usize, run: StrictNorm, back: StrictNorm)
        requires { Room self.old 1 }
        ensures tree { (p : Plain) → IsTurned p self.old self.new start (wrapped run back) }
        ensures room { Grows self.old self.new 1 }
    {
        if matches!((run, back), (StrictNorm::Pull, StrictNorm::Push)) {
            self.put(start, Form::Strict);
        }
    }

    // Closes a row with `kept` children, which stand from `start` on.
    pub(crate) fn close(&mut self, row: Row, start: usize, kept: u16)
        requires { Room self.old (most_closed row) }
        ensures tree { (p : Plain) → IsClosed p self.old self.new start kept (closed row) }
        ensures room { Grows self.old self.new (most_closed row) }
    {
        match (kept, row) {
            (0, _) => self.leaf(Form::Skip),
            (1, _) => {}
            (_, Row::And) => self.put(start, Form::And(kept)),
            (_, Row::Or) => {
                self.put(start, Form::Or(kept));
                self.put(start, Form::Required);
            }
        }
    }

    // Takes a Required off the tree at the end, unless it holds an Or.
    pub(crate) fn bare(&mut self)
        ensures tree { (p : Plain) (start : ℕ) → IsTurned p self.old self.new start bare_of }
        ensures room { Grows self.old self.new 0 }
    {
        if matches!(self.top(), Form::Required) && !matches!(self.second(), Form::Or(_)) {
            self.lift();
        }
    }
}
