// A wheel of 64 compartments over any waiting queue: a waiting queue with a wider band.
//
// With width w and current compartment number a, the queue below holds the items with keys from a*w to a*w + w - 1, each
// with its key less a*w. Later keys wait in the wheel's rim. The band is 64*w, and the capacity is the lower of 1,600 and
// that of the queue below. A later compartment becomes current when an item of it is taken: the queue below is cleared,
// the compartment's items are dealt below, and then the item is taken there. A question deals nothing. It promises the
// meaning of a queue on any queue that keeps it, uses that queue by the calls of `Queue` alone, and knows nothing of halls
// or jobs.
#![tactic(auto)]

ghost use Rattle.std.specs.Prelude.{◌≡◌, ℕ, ◌^◌, ◌<◌, MatchResult, slice_set};
ghost use Rattle.queue.specs.Meaning.{Meaning, cleared};
ghost use Rattle.wheel.specs.Banded.{whole_banded};
ghost use Rattle.wheel.specs.Rims.{rim_keys, Becomes};
ghost use Rattle.wheel.specs.Wheels.{base as first_key, wheel_named, means, IsSound, Sends, Turned, Turns, Places, Tried, Fresh};

mod rim;

use figures::{CELL_LIMIT, OutOfRange, WIDTH_LIMIT};
use queue::{Entry, OfferRefusal, Offered, Queue, TakeRefusal};
use rim::Rim;
use std::alloc::{AllocFailed, Global};

// Tried as a ghost field, that its parts agree stays open at `clear`: a call may make any queue sound, with any meaning.
#[derive(Drop)]
pub struct Wheel<Q: Queue + Drop> {
    below: Q,
    // The number of the current compartment, counted from key 0 on.
    current: u32,
    rim: Rim,
}

// Whether a wheel of this width can stand on a queue of this band. Refuses a width outside 1 to 4,096, and a band below
// width - 1.
pub fn trial(width: u32, band_below: u32) -> Result<(), OutOfRange>
    ensures { Tried width band_below result }
{
    if (1..=WIDTH_LIMIT).contains(&width) && width - 1 <= band_below {
        Ok(())
    } else {
        Err(OutOfRange)
    }
}

impl<Q: Queue + Drop> Wheel<Q> {
    // A wheel on a queue, which is cleared. Outside its figures it has capacity 0 and band 0. Refuses only for want of
    // memory, and gives the queue back. Time and memory by the capacity.
    pub fn new(heap: Global, width: u32, mut below: Q) -> Result<Wheel<Q>, AllocFailed<Q>>
        ensures { Q.Queue.sound below → MatchResult result (λ v. ⟦<Wheel<Q> as Queue>⟧.sound v × Fresh width (Q.Queue.meaning below) (⟦<Wheel<Q> as Queue>⟧.meaning v)) (λ e. Q.Queue.sound e.value × (Q.Queue.meaning e.value ≡ cleared (Q.Queue.meaning below))) }
    {
        below.clear();
        let (width, capacity) = match trial(width, below.band()) {
            Ok(()) => (width, below.capacity().min(CELL_LIMIT)),
            Err(OutOfRange) => (0, 0),
        };
        // By a `match`: a closure for the error would take the queue below in any case.
        match Rim::new(heap, width, capacity) {
            Ok(rim) => Ok(Wheel {
                below,
                current: 0,
                rim,
            }),
            Err(_) => Err(AllocFailed { value: below }),
        }
    }

    // The first key of the current compartment. Here and below a sum may wrap only over a queue that is not sound.
    fn base(&self) -> u32
        ensures { first_key self.now.current self.now.rim < 2 ^ 32 → result ≡ first_key self.now.current self.now.rim }
    {
        self.current.wrapping_mul(self.rim.width())
    }

    // Takes an item out of its compartment, if it waits in one, and offers it below. Constant time beside the offer.
    fn deal(&mut self, item: usize, key: u32)
        ensures keeps { Q.Queue.sound self.old.below → Q.Queue.sound self.new.below }
        ensures same { self.new.current ≡ self.old.current }
        ensures items { Becomes self.old.rim (slice_set (rim_keys self.old.rim) item None) self.new.rim }
        ensures after { Q.Queue.sound self.old.below → Sends Q.Queue.meaning self.old item key self.new }
    {
        self.rim.unlink(item);
        let base = self.base();
        let _ = self.below.offer(item, key.wrapping_sub(base));
    }

    // Deals the items of the compartment that has just become current: the queue below, which meant m, is cleared.
    fn deal_all(&mut self)
        ensures keeps { Q.Queue.sound self.old.below → Q.Queue.sound self.new.below }
        ensures same { self.new.current ≡ self.old.current }
        ensures after { Q.Queue.sound self.old.below → (a : ℕ) (m : Meaning) → Q.Queue.meaning self.old.below ≡ cleared m → Turned a self.old.rim m self.old.current self.new.current self.new.rim (Q.Queue.meaning self.new.below) }
    {
        while let Some(entry) = self.rim.first_in(self.current) {
            self.deal(entry.item, entry.key);
        }
    }

    // Makes a later compartment current: clears the queue below, and deals the compartment's items there.
    fn turn(&mut self, number: u32)
        ensures keeps { Q.Queue.sound self.old.below → Q.Queue.sound self.new.below }
        ensures after { Q.Queue.sound self.old.below → Turns Q.Queue.meaning self.old number self.new }
    {
        self.below.clear(); // the floor below is 0 again
        self.current = number;
        self.deal_all();
    }

    // Has an item wait at a key in the current compartment or a later one.
    fn place(&mut self, item: usize, key: u32)
        ensures keeps { Q.Queue.sound self.old.below → Q.Queue.sound self.new.below }
        ensures after { Q.Queue.sound self.old.below → Places Q.Queue.meaning self.old item key self.new }
    {
        if self.rim.quotient(key) == self.current {
            self.deal(item, key);
        } else {
            self.rim.unlink(item);
            self.rim.link(item, key);
        }
    }
}

impl<Q: Queue + Drop> Queue for Wheel<Q> {
    ghost meaning = { λ w. means Q.Queue.meaning w };

    ghost sound = { λ w. Q.Queue.sound w.below × IsSound Q.Queue.meaning w };

    ghost named = { λ w. wheel_named w.current w.rim (Q.Queue.named w.below) };

    ghost banded = { λ w s. whole_banded w.current w.rim (Q.Queue.meaning w.below) s.1 (Q.Queue.banded w.below s.0) };

    // Constant time where nothing waits, else by the capacity.
    #[tactic(auto, using(crate::proofs::Calls::clears))]
    fn clear(&mut self) {
        self.below.clear();
        self.current = 0;
        self.rim.clear();
    }

    // Below and in the rim.
    #[tactic(auto, using(crate::proofs::Calls::waiting_sum))]
    fn waiting(&self) -> usize {
        self.below.waiting().wrapping_add(self.rim.later())
    }

    fn floor(&self) -> u32 {
        self.base().wrapping_add(self.below.floor())
    }

    #[tactic(auto, using(crate::specs::Banded::length_joined))]
    fn capacity(&self) -> usize {
        self.rim.len()
    }

    fn band(&self) -> u32 {
        self.rim.width().wrapping_mul(64)
    }

    // In the rim or below.
    #[tactic(auto, using(crate::proofs::Calls::keyed))]
    fn key(&self, item: usize) -> Option<u32> {
        if let Some(key) = self.rim.key(item) {
            return Some(key);
        }
        let key = self.below.key(item)?;
        Some(self.base().wrapping_add(key))
    }

    // As below, or while nothing waits there by the items of one compartment.
    #[tactic(auto, using(crate::proofs::Calls::names))]
    fn least(&self) -> Option<Entry> {
        match self.below.least() {
            Some(entry) => Some(Entry {
                key: self.base().wrapping_add(entry.key),
                ..entry
            }),
            None => self.rim.least_after(self.current),
        }
    }

    // Constant time beside the offer below.
    fn offer(&mut self, item: usize, key: u32) -> Result<Offered, OfferRefusal> {
        self.admits(item, key)?;
        let offered = match self.key(item) {
            Some(old) if old <= key => return Ok(Offered::Kept),
            Some(_) => Offered::Lowered,
            None => Offered::Entered,
        };
        self.place(item, key);
        Ok(offered)
    }

    // As the taking below; by the items of a compartment where it becomes current.
    fn take(&mut self, item: usize) -> Result<(), TakeRefusal> {
        // One taking below for both: two are inlined twice, and cost up to 2 % of a run.
        if let Some(key) = self.rim.key(item) {
            self.yields(item)?;
            let number = self.rim.quotient(key);
            self.turn(number);
        }
        self.below.take(item)
    }
}
