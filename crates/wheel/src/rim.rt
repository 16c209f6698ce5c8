// The rim of a wheel: 64 compartments of one width, and the items that wait in them.
//
// Key k lies in compartment (k / width) mod 64, which chains its items through their cells and counts them. A rim of
// width 0 has no items.
ghost use Rattle.std.specs.Prelude.{◌≡◌, ℕ, ◌+◌, ◌-◌, ◌/◌, ◌%◌, ◌^◌, ◌<◌, length, replicate, IfOk, Some, None, slice_index_or, slice_set};
ghost use Rattle.chains.specs.Cells.{keys, nexts, prevs};
ghost use Rattle.chains.specs.Links.{fronted, fronted_prevs, unlinked, unlinked_nexts, unlinked_prevs};
ghost use Rattle.wheel.specs.Later.{first_held, nearer as the_nearer};
ghost use Rattle.wheel.specs.Compartments.{vacant, place_of, RimSound};

use chains::{Cell, Chain, Linked};
use queue::Entry;
use std::alloc::{AllocError, Global};

// How many compartments a wheel has.
const COMPARTMENTS: usize = 64;

// One compartment: the chain of its items, and how many there are.
#[derive(Clone, Copy)]
pub struct Compartment {
    chain: Chain,
    count: usize,
}

impl Compartment {
    const fn new() -> Compartment
        ensures { result ≡ vacant }
    {
        Compartment {
            chain: Chain::new(),
            count: 0,
        }
    }

    // Puts an item at a key, in front.
    fn link(&mut self, cells: &mut [Cell], item: usize, key: u32)
        requires { self.old.count + 1 < 2 ^ 64 }
        ensures value { self.new.chain.first ≡ fronted (nexts cells.old) item self.old.chain.first }
        ensures len { self.new.count ≡ self.old.count + 1 }
        ensures after { nexts cells.new ≡ slice_set (nexts cells.old) item self.old.chain.first }
        ensures keeps { prevs cells.new ≡ fronted_prevs (prevs cells.old) item self.old.chain.first }
        ensures items { keys cells.new ≡ slice_set (keys cells.old) item (Some key) }
    {
        self.chain = self.chain.entered(cells, item, key);
        self.count += 1;
    }

    // Takes an item out, so that it waits no more.
    fn unlink(&mut self, cells: &mut [Cell], item: usize)
        requires { 0 < self.old.count }
        ensures value { self.new.chain.first ≡ unlinked (nexts cells.old) (prevs cells.old) item self.old.chain.first }
        ensures len { self.new.count ≡ self.old.count - 1 }
        ensures after { nexts cells.new ≡ unlinked_nexts (nexts cells.old) (prevs cells.old) item }
        ensures keeps { prevs cells.new ≡ unlinked_prevs (nexts cells.old) (prevs cells.old) item }
        ensures items { keys cells.new ≡ slice_set (keys cells.old) item None }
    {
        self.chain = self.chain.left(cells, item);
        self.count -= 1;
    }
}

// The items that wait in the compartments.
#[derive(Drop)]
pub struct Rim {
    // Each compartment's width, 0 where the wheel was made outside its figures.
    width: u32,
    // How many items wait in the compartments.
    later: usize,
    cells: Vec<Cell>,
    table: [Compartment; COMPARTMENTS],
    // Each chain holds exactly the items whose keys fall into its compartment, and the counts are right.
    ghost sound: { ∥ RimSound width later cells.items table ∥₁ },
}

impl Rim {
    ghost use Rattle.wheel.specs.Rims.{rim_keys, rim_counts, rim_least, least_at, Lies, Becomes};

    // A rim of this width with cells for this many items, none of which waits.
    #[tactic(auto, using(crate::proofs::Rims::blanks))]
    pub(super) fn new(heap: Global, width: u32, capacity: usize) -> Result<Rim, AllocError>
        ensures { IfOk result (λ v. (v.width ≡ width) × (rim_keys v ≡ replicate capacity None)) }
    {
        let cells = vec![in heap; Cell::new(); capacity]?;
        let vacant = Compartment::new();
        let table = [vacant; COMPARTMENTS];
        Ok(Rim {
            width,
            later: 0,
            cells,
            table,
        })
    }

    pub(super) fn width(&self) -> u32
        ensures { result ≡ self.now.width }
    {
        self.width
    }

    // How many items there are.
    pub(super) fn len(&self) -> usize
        ensures { result ≡ length (rim_keys self.now) }
    {
        self.cells.len()
    }

    // How many items wait in the compartments.
    pub(super) fn later(&self) -> usize
        ensures { result ≡ self.now.later }
    {
        self.later
    }

    // The number of a key's compartment, counted from key 0 on.
    pub(super) fn quotient(&self, key: u32) -> u32
        ensures { result ≡ key / self.now.width }
    {
        key.checked_div(self.width).unwrap_or(0)
    }

    // The place of a key's compartment in the table.
    fn place(&self, key: u32) -> usize
        ensures { result ≡ place_of self.now.width key }
    {
        self.quotient(key) as usize % COMPARTMENTS
    }

    // The item's key if it waits in a compartment.
    pub(super) fn key(&self, item: usize) -> Option<u32>
        ensures { result ≡ slice_index_or (rim_keys self.now) item None }
    {
        self.cells.get(item)?.key()
    }

    // `link` and `unlink` stand apart: they share no more than the compartment's place.

    // Takes an item out of its compartment, if it waits in one. Constant time.
    #[tactic(auto, using(crate::proofs::Rims::unlinking))]
    pub(super) fn unlink(&mut self, item: usize)
        ensures { Becomes self.old (slice_set (rim_keys self.old) item None) self.new }
    {
        if let Some(key) = self.key(item) {
            let place = self.place(key);
            self.table[place].unlink(self.cells.as_mut_slice(), item);
            self.later -= 1;
        }
    }

    // Puts an item that does not wait into the compartment of a key. Constant time.
    #[tactic(auto, using(crate::proofs::Rims::linking))]
    pub(super) fn link(&mut self, item: usize, key: u32)
        requires { slice_index_or (rim_keys self.old) item None ≡ None }
        ensures { Becomes self.old (slice_set (rim_keys self.old) item (Some key)) self.new }
    {
        if item < self.cells.len() {
            let place = self.place(key);
            self.table[place].link(self.cells.as_mut_slice(), item, key);
            self.later += 1;
        }
    }

    // Nothing waits in the compartments any more. At once where nothing waits.
    #[tactic(auto, using(crate::proofs::Rims::blanks))]
    pub(super) fn clear(&mut self)
        ensures { Becomes self.old (replicate (length (rim_keys self.old)) None) self.new }
    {
        if self.later > 0 {
            self.later = 0;
            self.cells.fill(Cell::new());
            self.table.fill(Compartment::new());
        }
    }

    // An item in the compartment of this number, if any lies there.
    #[tactic(auto, using(crate::proofs::Rims::lying))]
    pub(super) fn first_in(&self, number: u32) -> Option<Entry>
        ensures { Lies self.now.width (rim_keys self.now) (number % 64) result }
    {
        let item = self.table[number as usize % COMPARTMENTS].chain.first()?;
        Some(Entry {
            item,
            key: self.key(item)?,
        })
    }

    // An item of least key in the first compartment after this number that holds something.
    #[tactic(auto, using(crate::proofs::Seek::held_place))]
    pub(super) fn least_after(&self, number: u32) -> Option<Entry>
        ensures { result ≡ rim_least number self.now }
    {
        self.least_in(self.first_held(number)?)
    }

    // The first compartment after this number that holds something.
    fn first_held(&self, number: u32) -> Option<usize>
        ensures { result ≡ first_held (rim_counts self.now) 64 number }
    {
        (0..COMPARTMENTS)
            .map(|step| (number as usize + step + 1) % COMPARTMENTS)
            .find(|&place| self.table[place].count > 0)
    }

    // An item of least key in a compartment. Along the links: an iterator over them would count beside it, to be sure to end.
    #[tactic(auto, using(crate::proofs::Rims::walking))]
    fn least_in(&self, place: usize) -> Option<Entry>
        requires { place < 64 }
        ensures { result ≡ least_at self.now (Some place) }
    {
        let mut best = None;
        let mut at = self.table[place].chain.first();
        while let Some(item) = at {
            let cell = self.cells[item];
            best = nearer(best, item, cell.key());
            at = cell.next();
        }
        best
    }
}

// The nearer of an entry and an item that waits at this key, the first where their keys are equal.
fn nearer(best: Option<Entry>, item: usize, key: Option<u32>) -> Option<Entry>
    ensures { result ≡ the_nearer best item key }
{
    let Some(key) = key else {
        return best;
    };
    best.filter(|best| best.key <= key)
        .or(Some(Entry { item, key }))
}
