// A binary heap as a waiting queue, in memory that its maker lends.
//
// The waiting items stand in a tree in which none has a lower key than the one above it. Cell i of the row has the key
// of item i and its place in the tree, and cell p has the item that stands at place p. It promises the meaning of a
// queue, with the widest band; it touches the lent cells alone, and knows nothing of halls or jobs.
#![tactic(auto)]

mod row;
mod tree;

ghost use Rattle.std.specs.Prelude.{◌≡◌, ⊤, length};
ghost use Rattle.heap.specs.Cells.{blank};
ghost use Rattle.heap.specs.Contents.{Agrees, fresh, Tried};

use figures::{CELL_LIMIT, OutOfRange, VALUE_LIMIT};
use queue::{Entry, OfferRefusal, Offered, Queue, TakeRefusal};
use tree::Tree;

// What a heap keeps of one item, and of one place of its tree.
// One cell serves both: in two rows, of items and of places, a caller would lend two and keep them of one length.
#[derive(Clone, Copy, Debug)]
pub struct Cell {
    // The item's key, if it waits.
    key: Option<u32>,
    // The item's place, where it waits.
    place: usize,
    // The item at the place.
    item: usize,
}

impl Cell {
    // A cell in which nothing waits, to fill the memory of a heap with.
    pub const fn new() -> Cell
        ensures { result ≡ blank }
    {
        Cell {
            key: None,
            place: 0,
            item: 0,
        }
    }
}

// Whether a heap over this many cells has them for its capacity: refused where there is none, or too many.
pub fn trial(cells: usize) -> Result<(), OutOfRange>
    ensures { Tried cells result }
{
    if !(1..=CELL_LIMIT).contains(&cells) {
        return Err(OutOfRange);
    }
    Ok(())
}

// A waiting queue in lent cells. Its parts agree at all times.
#[derive(Drop)]
pub struct Heap<'a> {
    tree: Tree<'a>,
    floor: u32,
    pub ghost agrees: { Agrees tree floor },
}

impl<'a> Heap<'a> {
    ghost use Rattle.heap.specs.Heaps.{content};

    // An empty queue whose capacity is the number of cells, whatever stood in them, or 0 where they are too many. Takes
    // time by the number of cells.
    pub fn new(cells: &'a mut [Cell]) -> Heap<'a>
        ensures { content result ≡ fresh (length cells.old) }
    {
        let room = trial(cells.len()).map_or(0, |()| cells.len());
        Heap {
            tree: Tree::new(&mut cells[..room]),
            floor: 0,
        }
    }
}

// A question is answered at once; an offer and a taking take time by the tree's height; to clear takes time by the
// number of cells, and none where nothing waits.
impl Queue for Heap<'_> {
    ghost use Rattle.heap.specs.Heaps.{content, first};

    ghost meaning = { content };

    ghost sound = { λ _. ⊤ };

    ghost named = { first };

    ghost banded = { λ h _. h.agrees.banded };

    fn clear(&mut self) {
        self.tree.clear();
        self.floor = 0;
    }

    fn waiting(&self) -> usize {
        self.tree.len()
    }

    fn floor(&self) -> u32 {
        self.floor
    }

    fn capacity(&self) -> usize {
        self.tree.capacity()
    }

    fn band(&self) -> u32 {
        if self.capacity() == 0 { 0 } else { VALUE_LIMIT }
    }

    fn key(&self, item: usize) -> Option<u32> {
        self.tree.key(item)
    }

    fn least(&self) -> Option<Entry> {
        self.tree.root()
    }

    fn offer(&mut self, item: usize, key: u32) -> Result<Offered, OfferRefusal> {
        self.admits(item, key)?;
        match self.key(item) {
            None => {
                self.tree.enter(item, key);
                Ok(Offered::Entered)
            }
            Some(old) if key < old => {
                self.tree.lower(item, key);
                Ok(Offered::Lowered)
            }
            Some(_) => Ok(Offered::Kept),
        }
    }

    #[tactic(auto, using(crate::proofs::Sounds::taken_agrees))]
    fn take(&mut self, item: usize) -> Result<(), TakeRefusal> {
        let key = self.yields(item)?;
        self.tree.remove(item);
        self.floor = key;
        Ok(())
    }
}
