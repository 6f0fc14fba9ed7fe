// The book: nodes that are added from the leaves up, with what always holds of them.
use crate::fields::Record;
use buffer::store::Store;
use std::marker::Model;

mod adds;
mod reads;
mod trees;

#[derive(Clone, Copy, Debug, PartialEq, Eq)]
pub struct Node {
    record: Record,
    // Where its children begin among those of all nodes, and how many there are: a list of its own would need memory.
    first: u16,
    count: u16,
}

// The lists take all their memory at the start, since nothing may allocate once a book is open.
#[derive(Drop)]
pub struct Book {
    nodes: Vec<Node>,
    // The children of all nodes, each node's in one run.
    kids: Vec<u16>,
    // The nodes without a parent, rising.
    unplaced: Vec<u16>,
    store: Store,
    places: usize,
}

impl Model for Book {
    ghost use Rattle.rules.specs.Plain.{Plain};

    ghost Value = { Plain };

    ghost use Rattle.meta.specs.View.{plain_of, IsBook};

    ghost view = { plain_of };

    ghost invariant = { IsBook };
}

impl Book {
    // The most places that a book uses, however many it is given.
    pub const MOST: usize = 256;
}
