// A ring as a waiting queue.
ghost use Rattle.ring.specs.Sound.{means, Sound, names};

use crate::Ring;
use queue::{Entry, OfferRefusal, Offered, Queue, TakeRefusal};

impl Queue for Ring<'_> {
    ghost meaning = { means };

    ghost sound = { Sound };

    ghost named = { names };

    ghost banded = { λ q s. s.banded };

    fn clear(&mut self) {
        self.wipe();
    }

    fn waiting(&self) -> usize {
        self.waiting
    }

    fn floor(&self) -> u32 {
        self.floor
    }

    fn capacity(&self) -> usize {
        self.size()
    }

    fn band(&self) -> u32 {
        u32::try_from(self.slots.len().saturating_sub(1)).unwrap_or(0)
    }

    fn key(&self, item: usize) -> Option<u32> {
        self.key_at(item)
    }

    #[tactic(auto, using(crate::proofs::Scans::chosen_least))]
    fn least(&self) -> Option<Entry> {
        self.pick()
    }

    fn offer(&mut self, item: usize, key: u32) -> Result<Offered, OfferRefusal> {
        self.admits(item, key)?;
        Ok(self.admit(item, key))
    }

    fn take(&mut self, item: usize) -> Result<(), TakeRefusal> {
        let key = self.yields(item)?;
        self.withdraw(item, key);
        Ok(())
    }
}
