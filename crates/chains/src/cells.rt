// The cells of a queue of chains: what it knows of each of its items.
ghost use Rattle.std.specs.Prelude.{◌≡◌, slice_set, Some, None};
ghost use Rattle.chains.specs.Links.{fronted, fronted_prevs, unlinked, unlinked_nexts, unlinked_prevs};
ghost use Rattle.chains.specs.Cells.{blank, keys, nexts, prevs};

use crate::{Chain, DoublyLinked, Linked};

// What a queue of chains knows of one item: its key while it waits, and its links.
#[derive(Clone, Copy, Debug)]
pub struct Cell {
    key: Option<u32>,
    next: Option<usize>,
    prev: Option<usize>,
}

impl Cell {
    // The cell of an item that does not wait.
    pub const fn new() -> Cell
        ensures { result ≡ blank }
    {
        Cell {
            key: None,
            next: None,
            prev: None,
        }
    }

    // The item's key while it waits.
    pub fn key(self) -> Option<u32>
        ensures { result ≡ self.key }
    {
        self.key
    }
}

impl Linked for Cell {
    ghost link = { λ c. c.next };

    ghost back = { λ c. c.prev };

    ghost bare = { λ c. record { key = c.key; next = None; prev = None } };

    fn next(&self) -> Option<usize> {
        self.next
    }

    fn set_next(&mut self, next: Option<usize>) {
        self.next = next;
    }
}

impl DoublyLinked for Cell {
    fn prev(&self) -> Option<usize> {
        self.prev
    }

    fn set_prev(&mut self, prev: Option<usize>) {
        self.prev = prev;
    }
}

// Writes the key of the item at a place, if there is one.
fn write_key(cells: &mut [Cell], item: usize, key: Option<u32>)
    ensures after { keys cells.new ≡ slice_set (keys cells.old) item key }
    ensures keeps { nexts cells.new ≡ nexts cells.old }
    ensures same { prevs cells.new ≡ prevs cells.old }
{
    // By index: of a slice's `get_mut` a proof knows the length alone, so the three rows stayed open.
    if item < cells.len() {
        cells[item].key = key;
    }
}

impl Chain {
    // The chain with an item in front that waits at a key from now on. Constant time. Past the end nothing changes.
    pub fn entered(self, cells: &mut [Cell], item: usize, key: u32) -> Chain
        ensures value { result.first ≡ fronted (nexts cells.old) item self.first }
        ensures after { nexts cells.new ≡ slice_set (nexts cells.old) item self.first }
        ensures keeps { prevs cells.new ≡ fronted_prevs (prevs cells.old) item self.first }
        ensures items { keys cells.new ≡ slice_set (keys cells.old) item (Some key) }
    {
        let chain = self.inserted(cells, item);
        write_key(cells, item, Some(key));
        chain
    }

    // The chain without an item, which waits no more. Constant time. Past the end nothing changes.
    pub fn left(self, cells: &mut [Cell], item: usize) -> Chain
        ensures value { result.first ≡ unlinked (nexts cells.old) (prevs cells.old) item self.first }
        ensures after { nexts cells.new ≡ unlinked_nexts (nexts cells.old) (prevs cells.old) item }
        ensures keeps { prevs cells.new ≡ unlinked_prevs (nexts cells.old) (prevs cells.old) item }
        ensures items { keys cells.new ≡ slice_set (keys cells.old) item None }
    {
        let chain = self.removed(cells, item);
        write_key(cells, item, None);
        chain
    }
}
