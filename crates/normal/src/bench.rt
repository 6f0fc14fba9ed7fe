// The bench that a normal form is built on.
ghost use Rattle.std.specs.Prelude.{◌≡◌, ◌+◌, [], length, IfOk};
ghost use Rattle.terms.specs.Kind.{same_kind};
ghost use Rattle.terms.specs.declared.kind.Kind.TheVariants as K;
ghost use Rattle.rules.specs.Plain.{Plain};
ghost use Rattle.normal.specs.Bench.{top_of, kind_of, count_of};
ghost use Rattle.normal.specs.Held.{Room, Grows, IsCut, IsSealed, IsAdded, IsLifted, IsTop, IsSecond};

use meta::book::Book;
use meta::item::Item;
use std::alloc::{AllocError, Global};
use std::marker::Model;

mod steps;

// What a node of the normal form says: only the kinds that one has.
#[derive(Clone, Copy, Debug, PartialEq, Eq)]
pub enum Form {
    Skip,
    // How many children it has.
    And(u16),
    Or(u16),
    Optional,
    Required,
    Many,
    Strict,
    // The number of the note that its tree reads as.
    CustomUsage(u16),
    // An item, and the number of its node.
    Item { node: u16, item: Item },
}

impl Form {
    // Whether it is a command.
    pub(crate) fn is_command(self) -> bool
        ensures { result ≡ same_kind K.Command (kind_of self) }
    {
        matches!(
            self,
            Form::Item {
                item: Item::Command { .. },
                ..
            }
        )
    }
}

// A node of the normal form, behind all nodes below it.
#[derive(Clone, Copy, Debug, PartialEq, Eq)]
pub struct Normal {
    pub form: Form,
    // How many nodes its tree has.
    pub size: u16,
}

// The nodes of a normal form, for which all memory is taken at the start: nothing may allocate later, and a tree of
// boxes would.
#[derive(Drop)]
pub struct Bench {
    nodes: Vec<Normal>,
    places: usize,
}

impl Model for Bench {
    ghost use Rattle.std.specs.Prelude.{◌≤◌, min, vec_capacity};
    ghost use Rattle.normal.specs.Holding.{Holding};
    ghost use Rattle.normal.specs.Places.{most};

    ghost Value = { Holding };

    ghost view = { λ b. record {
      nodes = b.nodes.items;
      places = b.places;
      capacity = vec_capacity b.nodes;
      list = b.nodes;
    } };

    ghost invariant = { λ b. min b.places most ≤ vec_capacity b.nodes };
}

impl Bench {
    // The most nodes that are reserved: three for each node of the largest book, and two more.
    pub const MOST: usize = 3 * Book::MOST + 2;

    // An empty bench.
    pub fn new(heap: Global, places: usize) -> Result<Bench, AllocError>
        ensures { IfOk result (λ b. (b.nodes ≡ []) × (b.places ≡ places)) }
    {
        let nodes = Vec::with_capacity(heap, places.min(Bench::MOST))?;
        Ok(Bench { nodes, places })
    }

    // The places that it was made for.
    pub fn places(&self) -> usize
        ensures { result ≡ self.now.places }
    {
        self.places
    }

    // The nodes of the normal form, each behind those below it.
    pub fn nodes(&self) -> &[Normal]
        ensures { result.now ≡ self.now.nodes }
    {
        self.nodes.as_slice()
    }

    // How many nodes stand on it.
    pub(crate) fn len(&self) -> usize
        ensures { result ≡ length self.now.nodes }
    {
        self.nodes.len()
    }

    // Takes all nodes away.
    pub(crate) fn clear(&mut self)
        ensures none { self.new.nodes ≡ [] }
        ensures same { self.new.places ≡ self.old.places }
        ensures memory { self.new.capacity ≡ self.old.capacity }
    {
        self.nodes.clear();
    }

    // Takes away what stands from `start` on.
    pub(crate) fn cut(&mut self, start: usize)
        ensures tree { (p : Plain) → IsCut p self.old self.new start }
        ensures room { Grows self.old self.new 0 }
    {
        self.nodes.truncate(start);
    }

    // Closes the tree whose children stand from `start` on, by its top.
    pub(crate) fn put(&mut self, start: usize, form: Form)
        requires { Room self.old 1 }
        ensures tree { (p : Plain)
            → IsSealed p self.old self.new start (top_of p form) (count_of form) }
        ensures one { length self.new.nodes ≡ length self.old.nodes + 1 }
        ensures room { Grows self.old self.new 1 }
    {
        // A bench has at most 770 nodes, so a tree's size fits.
        let size = (self.nodes.len().saturating_sub(start) + 1) as u16;
        self.nodes.push_reserved(Normal { form, size });
    }

    // Puts a tree of one node at the end.
    pub(crate) fn leaf(&mut self, form: Form)
        requires { Room self.old 1 }
        ensures tree { (p : Plain) → IsAdded p self.old self.new (top_of p form) (count_of form) }
        ensures room { Grows self.old self.new 1 }
    {
        let end = self.len();
        self.put(end, form);
    }

    // Takes the top off the tree at the end.
    pub(crate) fn lift(&mut self)
        ensures tree { (p : Plain) → IsLifted p self.old self.new }
        ensures room { Grows self.old self.new 0 }
    {
        let _ = self.nodes.pop();
    }

    // The form at the top of the tree at the end.
    pub(crate) fn top(&self) -> Form
        ensures { (p : Plain) → IsTop p self.now result }
    {
        match self.nodes.as_slice() {
            [.., top] => top.form,
            // No step acts on a Skip.
            [] => Form::Skip,
        }
    }

    // The form right below the top of the tree at the end.
    pub(crate) fn second(&self) -> Form
        ensures { (p : Plain) → IsSecond p self.now result }
    {
        match self.nodes.as_slice() {
            [.., second, _] => second.form,
            // As in `top`.
            _ => Form::Skip,
        }
    }
}
