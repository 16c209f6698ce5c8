// The waiting items in a tree: how one rises or sinks to its place.
ghost use Rattle.std.specs.Prelude.{◌≡◌, ℕ, ◌<◌, ◌≤◌, ◌≢◌, SomeIff, IfSome, IfNone, length, replicate, Some, None, slice_index_or, slice_set};
ghost use Rattle.queue.specs.Meaning.{held};
ghost use Rattle.heap.specs.Cells.{blank, rank as rank_at};
ghost use Rattle.heap.specs.Order.{Linked, Rising, Sinking, Heaped, Lower, parent as above};
ghost use Rattle.heap.specs.Contents.{SoundTree, waits, root};

use super::Cell;
use super::row::{cell_at, set_key, stand, swap};
use queue::Entry;

// The tree, of which the first places are taken. The count stands beside the cells, since these are lent.
// That it is sound stands in the clauses and not in the type, since it is not while an item moves.
#[derive(Drop)]
pub(crate) struct Tree<'a> {
    cells: &'a mut [Cell],
    count: usize,
}

// The place above, if this is not the root.
fn parent(place: usize) -> Option<usize>
    ensures { SomeIff result (0 < place) (above place) }
{
    Some(place.checked_sub(1)? / 2)
}

impl<'a> Tree<'a> {
    // A tree of no item, whatever stood in the cells.
    pub(crate) fn new(cells: &'a mut [Cell]) -> Tree<'a>
        ensures value { waits result ≡ replicate (length cells.old) None }
        ensures keeps { SoundTree result }
    {
        cells.fill(Cell::new());
        Tree { cells, count: 0 }
    }
}

impl Tree<'_> {
    // Lets nothing wait: at once where nothing waits.
    pub(crate) fn clear(&mut self)
        ensures after { SoundTree self.old → waits self.new ≡ replicate (length (waits self.old)) None }
        ensures keeps { SoundTree self.old → SoundTree self.new }
    {
        if self.count > 0 {
            self.cells.fill(Cell::new());
            self.count = 0;
        }
    }

    // How many items wait.
    pub(crate) fn len(&self) -> usize
        ensures { SoundTree self.now → result ≡ held (waits self.now) }
    {
        self.count
    }

    // How many items the tree is for.
    pub(crate) fn capacity(&self) -> usize
        ensures { result ≡ length (waits self.now) }
    {
        self.cells.len()
    }

    // The cell at the index; a blank one past the end.
    fn cell(&self, index: usize) -> Cell
        ensures { result ≡ slice_index_or self.now.cells.now index blank }
    {
        cell_at(self.cells, index)
    }

    // The item's key, if it waits.
    pub(crate) fn key(&self, item: usize) -> Option<u32>
        ensures { result ≡ slice_index_or (waits self.now) item None }
    {
        self.cell(item).key
    }

    // The key of the item at the place.
    fn rank(&self, place: usize) -> u32
        ensures { result ≡ rank_at self.now.cells.now place }
    {
        let item = self.cell(place).item;
        self.key(item).unwrap_or(0)
    }

    // The entry at the root, if any item waits.
    pub(crate) fn root(&self) -> Option<Entry>
        ensures { result ≡ root self.now }
    {
        (self.count > 0).then_some(Entry {
            item: self.cell(0).item,
            key: self.rank(0),
        })
    }

    // Enters the item, which does not wait, at the place after the last.
    pub(crate) fn enter(&mut self, item: usize, key: u32)
        ensures after { waits self.new ≡ slice_set (waits self.old) item (Some key) }
        ensures keeps { SoundTree self.old → item < length (waits self.old) → slice_index_or (waits self.old) item None ≡ None → SoundTree self.new }
    {
        let last = self.count;
        set_key(self.cells, item, Some(key));
        stand(self.cells, last, item);
        self.count = last.saturating_add(1);
        self.sift_up(last);
    }

    // Lowers the key of the item, which waits.
    pub(crate) fn lower(&mut self, item: usize, key: u32)
        ensures after { waits self.new ≡ slice_set (waits self.old) item (Some key) }
        ensures keeps { (old : ℕ) → SoundTree self.old → slice_index_or (waits self.old) item None ≡ Some old → key ≤ old → SoundTree self.new }
    {
        let place = self.cell(item).place;
        set_key(self.cells, item, Some(key));
        self.sift_up(place);
    }

    // Removes the item, which waits at a least key: the last one takes its place.
    pub(crate) fn remove(&mut self, item: usize)
        ensures after { waits self.new ≡ slice_set (waits self.old) item None }
        ensures keeps { (k : ℕ) → SoundTree self.old → slice_index_or (waits self.old) item None ≡ Some k → ((j l : ℕ) → slice_index_or (waits self.old) j None ≡ Some l → k ≤ l) → SoundTree self.new }
    {
        let place = self.cell(item).place;
        let last = self.count.saturating_sub(1);
        let moved = self.cell(last).item;
        self.count = last;
        stand(self.cells, place, moved);
        set_key(self.cells, item, None);
        self.sift_down(place);
    }

    // Swaps the item at the place upwards until its parent's rank is no higher.
    // By a loop: with `successors` over the places above, the place below would be a variable beside it all the same.
    fn sift_up(&mut self, place: usize)
        ensures len { self.new.count ≡ self.old.count }
        ensures same { waits self.new ≡ waits self.old }
        ensures keeps { Linked self.old.cells.now self.old.count → Rising (rank_at self.old.cells.now) self.old.count place → Heaped self.new.cells.now self.new.count }
    {
        let mut at = place;
        while let Some(above) = parent(at) {
            if self.rank(above) <= self.rank(at) {
                return;
            }
            swap(self.cells, at, above);
            at = above;
        }
    }

    // Swaps the item at the place downwards until no child's rank is lower.
    fn sift_down(&mut self, place: usize)
        ensures len { self.new.count ≡ self.old.count }
        ensures same { waits self.new ≡ waits self.old }
        ensures keeps { Linked self.old.cells.now self.old.count → Sinking (rank_at self.old.cells.now) self.old.count place → Heaped self.new.cells.now self.new.count }
    {
        let mut at = place;
        while let Some(child) = self.lower_child(at) {
            if self.rank(at) <= self.rank(child) {
                return;
            }
            swap(self.cells, at, child);
            at = child;
        }
    }

    // The child of least rank, if there is any.
    // By one test: `min_by_key` over the children was proved, and takings then took a sixth more instructions.
    fn lower_child(&self, place: usize) -> Option<usize>
        ensures some { IfSome result (λ child. Lower (rank_at self.now.cells.now) self.now.count place child) }
        ensures none { IfNone result ((c : ℕ) → 0 < c → c < self.now.count → above c ≢ place) }
    {
        if place >= self.count / 2 {
            return None;
        }
        let left = 2 * place + 1;
        let right = left + 1;
        if right < self.count && self.rank(right) < self.rank(left) {
            Some(right)
        } else {
            Some(left)
        }
    }
}
