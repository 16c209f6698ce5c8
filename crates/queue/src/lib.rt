// Waiting queues: items that wait with keys, taken nearest key first.
//
// A queue has a floor, the key of the item taken last, and a band: a key may lie from the floor to floor + band.
// Its capacity is how many items there are, numbered from 0. This crate knows nothing of halls or jobs.
//
// Every queue is proved to keep the meaning below, and code above it is proved once for all that do. A promise is made
// of sound queues; each call keeps a queue sound, and on any other it is still safe and ends. So soundness is a premise
// here and in the code above, and no invariant: a call may be lent any queue, and a wheel may stand on any.
#![tactic(auto)]

ghost use Rattle.std.specs.Prelude.{◌≡◌, ℕ, Option, OnErr};
ghost use Rattle.queue.specs.declared.Entry.{Entry};
ghost use Rattle.queue.specs.Meaning.{Meaning, capacity, key_of, waiting, cleared, Least, Offers, Admits, Idle, Takes, Yields, Banded, offer_number, take_number};

use figures::VALUE_LIMIT;

// What an accepted offer did.
#[derive(Clone, Copy, PartialEq, Eq, Debug)]
pub enum Offered {
    // The item did not wait, and now does.
    Entered,
    // The item waited at a higher key, and now waits at the one offered.
    Lowered,
    // The item waits as low or lower already.
    Kept,
}

// Why an offer is refused, in the order in which the cases are tried.
#[derive(Clone, Copy, PartialEq, Eq, Debug)]
pub enum OfferRefusal {
    // The item is not below the capacity.
    NoSuchItem = 20,
    // The key is below the floor.
    BelowFloor = 21,
    // The key is beyond floor + band, or above the largest key.
    BeyondBand = 22,
}

// Why a taking is refused, in the order in which the cases are tried.
#[derive(Clone, Copy, PartialEq, Eq, Debug)]
pub enum TakeRefusal {
    // The item does not wait.
    NotWaiting = 23,
    // Another item has a lower key.
    NotLeast = 24,
}

// The refusal's number.
impl From<OfferRefusal> for u32 {
    ghost from_gives = { λ r n. n ≡ offer_number r };

    fn from(refusal: OfferRefusal) -> u32 {
        refusal as u32
    }
}

// The refusal's number.
impl From<TakeRefusal> for u32 {
    ghost from_gives = { λ r n. n ≡ take_number r };

    fn from(refusal: TakeRefusal) -> u32 {
        refusal as u32
    }
}

// A waiting item and its key.
#[derive(Clone, Copy, PartialEq, Eq, Debug)]
pub struct Entry {
    pub item: usize,
    pub key: u32,
}

pub trait Queue {
    // The waiting items with their keys, the floor, the capacity and the band.
    ghost meaning: { Self → Meaning };

    // When the parts of a queue agree.
    ghost sound: { Self → Type 0 };

    // The entry that the queue names when it is asked for one of least key: the choice among equal keys.
    ghost named: { Self → Option Entry };

    // Each key lies in the band above the floor.
    ghost banded: { (q : Self) → sound q → Banded (meaning q) };

    // Nothing waits any more, and the floor is 0. At once where nothing waits.
    fn clear(&mut self)
        ensures after { sound self.old → meaning self.new ≡ cleared (meaning self.old) }
        ensures keeps { sound self.old → sound self.new };

    // How many items wait.
    fn waiting(&self) -> usize
        ensures { sound self.now → result ≡ waiting (meaning self.now) };

    fn floor(&self) -> u32
        ensures { sound self.now → result ≡ (meaning self.now).floor };

    fn capacity(&self) -> usize
        ensures { sound self.now → result ≡ capacity (meaning self.now) };

    fn band(&self) -> u32
        ensures { sound self.now → result ≡ (meaning self.now).band };

    // The item's key if it waits.
    fn key(&self, item: usize) -> Option<u32>
        ensures { sound self.now → result ≡ key_of (meaning self.now) item };

    // An item of least key, if any waits.
    fn least(&self) -> Option<Entry>
        ensures value { sound self.now → result ≡ named self.now }
        ensures cases { sound self.now → Least (meaning self.now) result };

    // Why the item may not be offered at the key, if it may not: the first case that holds.
    fn admits(&self, item: usize, key: u32) -> Result<(), OfferRefusal>
        ensures { sound self.now → Admits (meaning self.now) item key result }
    {
        if item >= self.capacity() {
            return Err(OfferRefusal::NoSuchItem);
        }
        let floor = self.floor();
        if key < floor {
            return Err(OfferRefusal::BelowFloor);
        }
        if key - floor > self.band() || key > VALUE_LIMIT {
            return Err(OfferRefusal::BeyondBand);
        }
        Ok(())
    }

    // The key of an item that may be taken, or why it may not. No other item is looked for where its key is the floor.
    fn yields(&self, item: usize) -> Result<u32, TakeRefusal>
        ensures { sound self.now → Yields (meaning self.now) item result }
    {
        let key = self.key(item).ok_or(TakeRefusal::NotWaiting)?;
        if key > self.floor() && self.least().is_some_and(|least| least.key < key) {
            return Err(TakeRefusal::NotLeast);
        }
        Ok(key)
    }

    // Enters the item, lowers it if it waits higher, or keeps it. Writes nothing where it is refused or keeps the item. What is
    // done is each queue's own: a heap lifts the item, a ring links it anew.
    fn offer(&mut self, item: usize, key: u32) -> Result<Offered, OfferRefusal>
        ensures cases { sound self.old → Offers (meaning self.old) item key result (meaning self.new) }
        ensures keeps { sound self.old → sound self.new }
        ensures same { Idle result (self.new ≡ self.old) };

    // Removes the item, and makes its key the floor. Writes nothing where it is refused.
    fn take(&mut self, item: usize) -> Result<(), TakeRefusal>
        ensures cases { sound self.old → Takes (meaning self.old) item result (meaning self.new) }
        ensures keeps { sound self.old → sound self.new }
        ensures same { sound self.old → OnErr result (self.new ≡ self.old) };
}
