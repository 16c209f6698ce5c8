// A ring of slots: a waiting queue for keys in a narrow band.
//
// Key k lies in slot k mod S, where S is the number of slots, and the band is S - 1, so a slot holds one key only.
// Slots and cells are lent at making. Offering takes constant time; the least item is looked for from the floor on. It
// promises the meaning of a queue; it touches the lent memory alone, and knows nothing of halls or jobs.
#![tactic(auto)]

ghost use Rattle.std.specs.Prelude.{◌≡◌, ℕ, ◌%◌, ◌<◌, ◌≤◌, length, is_ok, Some, None, Ok, slice_index_or};
ghost use Rattle.chains.specs.Cells.{keys};
ghost use Rattle.chains.specs.Slots.{entered, left};
ghost use Rattle.queue.specs.Meaning.{Allowed, Idle, Least, Lowest, Offers, cleared, key_of, taken};
ghost use Rattle.ring.specs.Standing.{fits, heads, slot_of, fresh, Blank, first_some, scanned};
ghost use Rattle.ring.specs.Sound.{slots_in, cells_in, rows_in, means, Sound, names};

mod queued;

pub use chains::Cell;
use chains::Chain;
use figures::{CELL_LIMIT, OutOfRange, SLOT_LIMIT};
use queue::{Entry, Offered};

// Soundness is no ghost field: tried, it is asked for where a call has written the cells and not yet the slot, and is false.
#[derive(Drop)]
pub struct Ring<'a> {
    slots: &'a mut [Chain],
    cells: &'a mut [Cell],
    floor: u32,
    waiting: usize,
}

// Whether a ring of so many slots and cells can be made.
pub fn trial(slots: usize, cells: usize) -> Result<(), OutOfRange>
    ensures { is_ok result ≡ fits slots cells }
{
    if (1..=SLOT_LIMIT).contains(&slots) && (1..=CELL_LIMIT).contains(&cells) {
        Ok(())
    } else {
        Err(OutOfRange)
    }
}

// Empties every slot, and lets no item wait.
fn blank(slots: &mut [Chain], cells: &mut [Cell])
    ensures { Blank slots.new cells.new }
{
    slots.fill(Chain::new());
    cells.fill(Cell::new());
}

// The first item of the first of these slots that holds something.
fn first_held(slots: &[Chain]) -> Option<usize>
    ensures { result ≡ first_some (heads slots.now) }
{
    slots.iter().find_map(|slot| slot.first())
}

impl<'a> Ring<'a> {
    // A ring in the memory lent, with nothing waiting. Outside its figures it has capacity and band 0.
    pub fn new(slots: &'a mut [Chain], cells: &'a mut [Cell]) -> Ring<'a>
        ensures made { means result ≡ fresh (length slots.old) (length cells.old) }
        ensures keeps { Sound result }
    {
        blank(slots, cells);
        Ring::over(slots, cells)
    }

    // A ring over blank memory; over none of it outside the figures.
    fn over(slots: &'a mut [Chain], cells: &'a mut [Cell]) -> Ring<'a>
        ensures made { Blank slots.old cells.old → means result ≡ fresh (length slots.old) (length cells.old) }
        ensures keeps { Blank slots.old cells.old → Sound result }
    {
        let (slots, cells) = match trial(slots.len(), cells.len()) {
            Ok(()) => (slots, cells),
            Err(OutOfRange) => (&mut slots[0..0], &mut cells[0..0]),
        };
        Ring {
            slots,
            cells,
            floor: 0,
            waiting: 0,
        }
    }
}

impl Ring<'_> {
    // The slot of a key. There is at least one slot where there is a cell.
    fn slot(&self, key: u32) -> usize
        ensures bound { result ≤ length (slots_in self.now) }
        ensures value { 0 < length (slots_in self.now) → result ≡ slot_of (length (slots_in self.now)) key }
    {
        (key as usize).checked_rem(self.slots.len()).unwrap_or(0)
    }

    // How many items there are.
    fn size(&self) -> usize
        ensures { result ≡ length (keys (cells_in self.now)) }
    {
        self.cells.len()
    }

    // The item's key if it waits.
    fn key_at(&self, item: usize) -> Option<u32>
        ensures { result ≡ slice_index_or (keys (cells_in self.now)) item None }
    {
        self.cells.get(item)?.key()
    }

    // `link` and `unlink` differ in one call and in its contract: one text for both would be no shorter. They write a slot by
    // its index: of a slice's `get_mut` a proof knows the length alone.

    // Puts the item, which does not wait, in front of the slot of a key.
    #[tactic(auto, using(crate::proofs::Writes::linked_rows))]
    fn link(&mut self, item: usize, key: u32)
        ensures after { item < length (cells_in self.old) → 0 < length (slots_in self.old) → rows_in self.new ≡ entered (slot_of (length (slots_in self.old))) (rows_in self.old) item key }
        ensures same { (self.new.floor ≡ self.old.floor) × (self.new.waiting ≡ self.old.waiting) }
    {
        let slot = self.slot(key);
        if slot < self.slots.len() {
            self.slots[slot] = self.slots[slot].entered(self.cells, item, key);
        }
    }

    // Takes the item, which waits at a key, out of the slot of the key.
    #[tactic(auto, using(crate::proofs::Writes::unlinked_rows))]
    fn unlink(&mut self, item: usize, key: u32)
        ensures after { item < length (cells_in self.old) → 0 < length (slots_in self.old) → rows_in self.new ≡ left (slot_of (length (slots_in self.old))) (rows_in self.old) item key }
        ensures same { (self.new.floor ≡ self.old.floor) × (self.new.waiting ≡ self.old.waiting) }
    {
        let slot = self.slot(key);
        if slot < self.slots.len() {
            self.slots[slot] = self.slots[slot].left(self.cells, item);
        }
    }

    // The first item of the first slot that holds something, from the floor's slot on and around.
    fn nearest(&self) -> Option<usize>
        ensures { result ≡ scanned (length (slots_in self.now)) (heads (slots_in self.now)) self.now.floor }
    {
        let (before, from) = self.slots.split_at(self.slot(self.floor));
        first_held(from).or_else(|| first_held(before))
    }

    // An item of least key, if any waits.
    #[tactic(auto, using(crate::proofs::Scans::chosen_idle))]
    fn pick(&self) -> Option<Entry>
        ensures { Sound self.now → result ≡ names self.now }
    {
        if self.waiting == 0 {
            return None;
        }
        let item = self.nearest()?;
        let key = self.key_at(item)?;
        Some(Entry { item, key })
    }

    // Takes every item out, and makes the floor 0. At once where nothing waits.
    #[tactic(auto, using(crate::proofs::Scans::idle, crate::proofs::Stands::cleared_stands))]
    fn wipe(&mut self)
        ensures after { Sound self.old → means self.new ≡ cleared (means self.old) }
        ensures keeps { Sound self.old → Sound self.new }
    {
        self.floor = 0;
        if self.waiting > 0 {
            self.waiting = 0;
            blank(self.slots, self.cells);
        }
    }

    // Enters the item at a key that is allowed, lowers it or keeps it.
    fn admit(&mut self, item: usize, key: u32) -> Offered
        ensures cases { Sound self.old → Allowed (means self.old) item key → Offers (means self.old) item key (Ok result) (means self.new) }
        ensures keeps { Sound self.old → Allowed (means self.old) item key → Sound self.new }
        ensures same { Idle (Ok result) (self.new ≡ self.old) }
    {
        match self.key_at(item) {
            None => {
                self.link(item, key);
                self.waiting = self.waiting.wrapping_add(1);
                Offered::Entered
            }
            Some(old) if old <= key => Offered::Kept,
            Some(old) => {
                self.unlink(item, old);
                self.link(item, key);
                Offered::Lowered
            }
        }
    }

    // Takes out the item, which waits at a lowest key.
    fn withdraw(&mut self, item: usize, key: u32)
        ensures after { Sound self.old → key_of (means self.old) item ≡ Some key → Lowest (means self.old) key → means self.new ≡ taken (means self.old) item key }
        ensures keeps { Sound self.old → key_of (means self.old) item ≡ Some key → Lowest (means self.old) key → Sound self.new }
    {
        self.unlink(item, key);
        self.waiting = self.waiting.wrapping_sub(1);
        self.floor = key;
    }
}
