// The table of a job: what is known of each pair, and how many pairs are settled and wait.
ghost use Rattle.std.specs.Prelude.{◌≡◌, ◌+◌, ◌*◌, ◌<◌, ◌≤◌, true, [], length, vec_len, vec_capacity, replicate, if◌then◌else◌, Some, IfOk, slice_index_or, slice_set};
ghost use Rattle.figures.specs.Limits.{value_limit};
ghost use Rattle.queue.specs.Meaning.{Meaning, put, capacity, key_of};
ghost use Rattle.model.specs.State.{leaving as legs_from, settled_in, waiting_in};
ghost use Rattle.model.specs.Calls.{offered, lowers, waits_as_low, noted, settle, start_table, start_queue, tries, point_limit};
ghost use Rattle.model.specs.declared.Pair.TheVariants.{Unseen};
ghost use Rattle.job.specs.Parts.{desk};
ghost use Rattle.job.specs.Shape.{Roomy, Counted};

use crate::hall::Hall;
use model::{LEG_LIMIT, Pair};
use queue::{Entry, Offered, Queue};
use rules::Rule;
use std::alloc::{AllocError, Global};

#[derive(Drop)]
pub struct Table {
    // Those of an open job; there is room for as many as may be.
    pub(crate) pairs: Vec<Pair>,
    pub(crate) settled: usize,
    pub(crate) waiting: usize,
    ghost roomy: { Roomy (vec_capacity pairs) },
    ghost counted: { Counted pairs.items settled waiting },
}

// What a spreading did: how many pairs began to wait, and how many legs were tried.
#[derive(Clone, Copy)]
pub struct Spread {
    pub fresh: usize,
    pub tried: usize,
}

// Offers an item, and tells whether it entered or was lowered. Few tries come to it: in the loop it would take registers.
#[cold]
#[inline(never)]
fn lowered<Q: Queue>(queue: &mut Q, item: usize, key: u32) -> bool
    ensures value { Q.Queue.sound queue.old → result ≡ lowers (Q.Queue.meaning queue.old) item key }
    ensures after { Q.Queue.sound queue.old → Q.Queue.meaning queue.new ≡ (if lowers (Q.Queue.meaning queue.old) item key then put (Q.Queue.meaning queue.old) item key else Q.Queue.meaning queue.old) }
    ensures keeps { Q.Queue.sound queue.old → Q.Queue.sound queue.new }
{
    matches!(
        queue.offer(item, key),
        Ok(Offered::Entered | Offered::Lowered)
    )
}

// Whether an item waits at a key or lower. By a `match`: with `is_some_and` each try cost three instructions more.
fn waits<Q: Queue>(queue: &Q, item: usize, key: u32) -> bool
    ensures { Q.Queue.sound queue.now → result ≡ waits_as_low (key_of (Q.Queue.meaning queue.now) item) key }
{
    match queue.key(item) {
        Some(old) => old <= key,
        None => false,
    }
}

// Tries a leg to the pair of an item, with the key that it would have. Answers 1 where the pair begins to wait, else 0.
// The queue would keep an item that waits as low already, so the question spares the offer: most tries end there.
// A number, since it is added: a `bool` would be turned into it at once.
pub(crate) fn try_leg<Q: Queue>(
    pairs: &mut [Pair],
    queue: &mut Q,
    item: usize,
    key: u32,
    number: usize,
) -> usize
    requires { item < length pairs.old }
    ensures after { Q.Queue.sound queue.old → desk pairs.new (Q.Queue.meaning queue.new) ≡ offered (desk pairs.old (Q.Queue.meaning queue.old)) item key number }
    ensures keeps { Q.Queue.sound queue.old → Q.Queue.sound queue.new }
    ensures value { waiting_in pairs.new ≡ waiting_in pairs.old + result }
    ensures same { settled_in pairs.new ≡ settled_in pairs.old }
{
    let fresh = match pairs[item] {
        Pair::Settled { .. } => return 0,
        Pair::Waiting { .. } => 0,
        Pair::Unseen => 1,
    };
    if waits(queue, item, key) {
        return 0;
    }
    if lowered(queue, item, key) {
        let last = Some(number);
        pairs[item] = Pair::Waiting { key, last };
        fresh
    } else {
        0
    }
}

// Fills an empty row with so many pairs of which nothing is known; there is room. Not by the library's `resize_with`: its way
// to more memory would keep the whole job in memory, and cost an instruction or two for each leg tried.
fn fill(pairs: &mut Vec<Pair>, count: usize)
    requires { (vec_len pairs.old ≡ 0) × (count ≤ vec_capacity pairs.old) }
    ensures items { pairs.new.items ≡ replicate count Unseen }
    ensures bound { vec_capacity pairs.new ≡ vec_capacity pairs.old }
{
    for _place in 0..count {
        pairs.push_reserved(Pair::Unseen);
    }
}

// Begins a table: the queue is cleared, and each point waits for itself at 0. Time by the points.
fn start<Q: Queue>(points: usize, pairs: &mut [Pair], queue: &mut Q)
    requires { (points ≤ point_limit) × (pairs.old ≡ replicate (points * points) Unseen) }
    ensures items { pairs.new ≡ start_table points points }
    ensures after { Q.Queue.sound queue.old → points * points ≤ capacity (Q.Queue.meaning queue.old) → Q.Queue.meaning queue.new ≡ start_queue points points (Q.Queue.meaning queue.old) }
    ensures keeps { Q.Queue.sound queue.old → Q.Queue.sound queue.new }
    ensures len { (waiting_in pairs.new ≡ points) × (settled_in pairs.new ≡ 0) }
{
    queue.clear();
    for point in 0..points {
        let item = point * points + point;
        lowered(queue, item, 0);
        pairs[item] = Pair::Waiting { key: 0, last: None };
    }
}

// Settles the pair of an entry at its key.
fn settle_at(pairs: &mut [Pair], entry: Entry)
    requires { noted pairs.old (Some entry) ≡ true }
    ensures after { pairs.new ≡ slice_set pairs.old entry.item (settle (slice_index_or pairs.old entry.item Unseen) entry.key) }
    ensures len { (waiting_in pairs.new + 1 ≡ waiting_in pairs.old) × (settled_in pairs.new ≡ settled_in pairs.old + 1) }
{
    let value = entry.key;
    let last = pairs[entry.item].last();
    pairs[entry.item] = Pair::Settled { value, last };
}

impl Table {
    ghost use Rattle.job.specs.View.{hall_in};

    // The table of no pair. All the memory that it ever needs is got here; refused where there is too little.
    pub(crate) fn new(heap: Global) -> Result<Table, AllocError>
        ensures { IfOk result (λ t. t.pairs.items ≡ []) }
    {
        let pairs: Vec<Pair> = Vec::with_capacity(heap, LEG_LIMIT)?;
        Ok(Table {
            pairs,
            settled: 0,
            waiting: 0,
        })
    }

    // Empties the table.
    pub(crate) fn clear(&mut self)
        ensures items { self.new.pairs.items ≡ [] }
        ensures len { vec_len self.new.pairs ≡ 0 }
        ensures value { self.new.settled ≡ 0 }
    {
        self.pairs.clear();
        self.settled = 0;
        self.waiting = 0;
    }

    // Begins an empty table of so many points: every pair of a point and itself waits at 0, in the queue too.
    pub(crate) fn start<Q: Queue>(&mut self, points: usize, queue: &mut Q)
        requires { (points ≤ point_limit) × (vec_len self.old.pairs ≡ 0) }
        ensures items { self.new.pairs.items ≡ start_table points points }
        ensures len { vec_len self.new.pairs ≡ points * points }
        ensures value { self.new.settled ≡ 0 }
        ensures after { Q.Queue.sound queue.old → points * points ≤ capacity (Q.Queue.meaning queue.old) → Q.Queue.meaning queue.new ≡ start_queue points points (Q.Queue.meaning queue.old) }
        ensures keeps { Q.Queue.sound queue.old → Q.Queue.sound queue.new }
    {
        fill(&mut self.pairs, points * points);
        start(points, self.pairs.as_mut_slice(), queue);
        self.settled = 0;
        self.waiting = points;
    }

    // Whether an entry's item waits at the same key.
    pub(crate) fn notes(&self, entry: Entry) -> bool
        ensures { result ≡ noted self.now.pairs.items (Some entry) }
    {
        self.pairs
            .get(entry.item)
            .is_some_and(|pair| pair.key() == Some(entry.key))
    }

    // Settles the pair of an entry that is noted.
    pub(crate) fn settle(&mut self, entry: Entry)
        requires { noted self.old.pairs.items (Some entry) ≡ true }
        ensures items { self.new.pairs.items ≡ slice_set self.old.pairs.items entry.item (settle (slice_index_or self.old.pairs.items entry.item Unseen) entry.key) }
        ensures len { vec_len self.new.pairs ≡ vec_len self.old.pairs }
        ensures bound { entry.item < vec_len self.old.pairs }
        ensures value { self.new.settled ≡ self.old.settled + 1 }
    {
        settle_at(self.pairs.as_mut_slice(), entry);
        self.settled += 1;
        self.waiting -= 1;
    }

    // Spreads a pair of the hall that is settled at the value, and tells how many legs were tried.
    pub(crate) fn spread<Q: Queue, R: Rule>(
        &mut self,
        hall: &Hall,
        from: usize,
        far: usize,
        value: u32,
        queue: &mut Q,
        rule: &R,
    ) -> usize
        requires ends { (from < hall.now.points) × (far < hall.now.points) }
        requires value { value ≤ value_limit }
        requires len { vec_len self.old.pairs ≡ hall.now.points * hall.now.points }
        ensures after { Q.Queue.sound queue.old → desk self.new.pairs.items (Q.Queue.meaning queue.new) ≡ tries (R.Rule.joined rule.now) (hall_in hall.now) from value (legs_from (hall_in hall.now) far) (desk self.old.pairs.items (Q.Queue.meaning queue.old)) }
        ensures keeps { Q.Queue.sound queue.old → Q.Queue.sound queue.new }
        ensures len { vec_len self.new.pairs ≡ vec_len self.old.pairs }
        ensures same { self.new.settled ≡ self.old.settled }
        ensures value { result ≡ length (legs_from (hall_in hall.now) far) }
        ensures bound { result ≤ vec_len hall.now.legs }
    {
        let spread = hall.spread(from, far, value, self.pairs.as_mut_slice(), queue, rule);
        self.waiting += spread.fresh;
        spread.tried
    }
}
