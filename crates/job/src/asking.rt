// The calls that ask a job.
ghost use Rattle.std.specs.Prelude.{◌≡◌, ◌+◌, ◌*◌, ◌<◌, ◌≤◌, true, length, vec_len, IfOk, Some};
ghost use Rattle.queue.specs.Meaning.{Least};
ghost use Rattle.model.specs.Calls.{Looks, Reads, noted, seen, tally_of};
ghost use Rattle.model.specs.State.{is_open, last_leg, pair_at, route as route_of, value_of};
ghost use Rattle.job.specs.Parts.{Told, Found, Stepped};
ghost use Rattle.job.specs.Promise.{Trusted, OutcomesListed};
ghost use Rattle.job.specs.View.{state_of};

use crate::state::Job;
use figures::VALUE_LIMIT;
use model::{Answer, Pair, Refusal, Tally};
use queue::{Entry, Queue};
use std::iter::successors;

impl Job {
    // What is known of a pair. Refused where the job is not open, and where there is no such pair. A pair's
    // ends stay two numbers: callers give them so, and every contract names them apart.
    fn pair(&self, from: usize, to: usize) -> Result<Pair, Refusal>
        ensures { Found (state_of self.now) from to result }
    {
        if !self.phase.is_open() {
            return Err(Refusal::WrongPhase);
        }
        if from >= self.hall.points || to >= self.hall.points {
            return Err(Refusal::NoSuchPoint);
        }
        Ok(self.table.pairs[from * self.hall.points + to])
    }

    // What is told of a pair.
    fn told(&self, pair: Pair) -> Answer
        ensures { result ≡ seen (state_of self.now) pair }
    {
        match pair {
            Pair::Settled { value, last } => Answer::Value { value, last },
            _ if self.phase.is_resting() && self.table.waiting == 0 => Answer::NoWay,
            _ => Answer::NotYet { floor: self.floor },
        }
    }

    // The entry that a queue names, if it and a rule's reach are as the job left them, so far as questions tell. Costs
    // the queue's questions.
    pub(crate) fn fit<Q: Queue>(&self, queue: &Q, reach: u32) -> Result<Option<Entry>, Refusal>
        ensures value { Q.Queue.sound queue.now → Told (state_of self.now) (Q.Queue.meaning queue.now) (Q.Queue.named queue.now) reach result }
        ensures cases { Q.Queue.sound queue.now → Least (Q.Queue.meaning queue.now) (Q.Queue.named queue.now) }
        ensures bound { IfOk result (λ named. noted self.now.table.pairs.items named ≡ true) }
    {
        let least = queue.least();
        if reach != self.opening.reach
            || queue.capacity() != self.opening.capacity
            || queue.band() != self.opening.band
            || queue.floor() != self.floor
            || queue.waiting() != self.table.waiting
            || self.floor.saturating_add(reach) > VALUE_LIMIT
            || least.is_some_and(|entry| !self.table.notes(entry))
        {
            return Err(Refusal::Unfit);
        }
        Ok(least)
    }

    // Looks up a pair. Constant time beside the queue's questions. Refused where there is no
    // such pair, and where the queue does not fit.
    pub fn look_up<Q: Queue>(&self, queue: &Q, from: usize, to: usize) -> Result<Answer, Refusal>
        ensures cases { Q.Queue.sound queue.now → Looks (λ x. x) (state_of self.now) from to (Q.Queue.meaning queue.now) (Q.Queue.named queue.now) result }
    {
        let pair = self.pair(from, to)?;
        self.fit(queue, self.opening.reach)?;
        Ok(self.told(pair))
    }

    // The last leg of a pair.
    fn last(&self, from: usize, to: usize) -> Option<usize>
        ensures { result ≡ last_leg (pair_at (state_of self.now) from to) }
    {
        self.pair(from, to).ok()?.last()
    }

    // How many legs the route of a pair has: from the last one back, and no more than there are points.
    fn route_len(&self, from: usize, to: usize) -> usize
        ensures { result ≡ length (route_of (state_of self.now) from to) }
    {
        successors(self.last(from, to), |number| {
            self.last(from, self.hall.origin(*number))
        })
        .take(self.points())
        .count()
    }

    // One leg back from a pair: writes its last leg to a place of the route, and answers the point that it leaves.
    fn step_back(&self, from: usize, to: usize, place: usize, route: &mut [usize]) -> Option<usize>
        requires { place < length route.old }
        ensures { Stepped (state_of self.now).hall (last_leg (pair_at (state_of self.now) from to)) place route.old result route.new }
    {
        let number = self.last(from, to)?;
        route[place] = number;
        Some(self.hall.origin(number))
    }

    // Writes the route of a pair, from its end back. By places: over `iter_mut().rev()` no invariant can name the slice.
    fn write_route(&self, from: usize, to: usize, route: &mut [usize])
        requires { length route.old ≡ length (route_of (state_of self.now) from to) }
        ensures { route.new ≡ route_of (state_of self.now) from to }
    {
        let mut at = to;
        for place in (0..route.len()).rev() {
            match self.step_back(from, at, place, route) {
                Some(before) => at = before,
                None => return,
            }
        }
    }

    // Reads the route of a settled pair into the front of a buffer, and answers its length. Time by its legs. Refused
    // where the pair is not settled, or the buffer is too short.
    pub fn route(&self, from: usize, to: usize, buffer: &mut [usize]) -> Result<usize, Refusal>
        ensures cases { Reads (λ x. x) (state_of self.now) from to buffer.old result buffer.new }
    {
        if self.pair(from, to)?.value().is_none() {
            return Err(Refusal::Unsettled);
        }
        let len = self.route_len(from, to);
        if len > buffer.len() {
            return Err(Refusal::BufferShort);
        }
        self.write_route(from, to, &mut buffer[..len]);
        Ok(len)
    }

    // How many legs stand.
    fn laid(&self) -> usize
        ensures { result ≡ length (state_of self.now).hall.legs }
    {
        self.hall.legs.len()
    }

    // The law over every list of calls: after each of them, an open job's settled routes are least walks, nothing
    // unsettled is nearer than something settled, and its counts are exact. There is nothing to do.
    pub(crate) fn trusted(&self)
        ensures { Trusted (state_of self.now) }
    {}

    // No outcome of a call falls outside the lists that the law speaks of. There is nothing to do.
    fn listed(&self)
        ensures { OutcomesListed (state_of self.now) }
    {}

    // What stands and what was done. Constant time. The law over every list of calls stands here: these counts are
    // exact, and the table that they are of can be trusted.
    pub fn tally(&self) -> Tally
        ensures value { result ≡ tally_of (state_of self.now) }
        ensures law { Trusted (state_of self.now) }
        ensures listed { OutcomesListed (state_of self.now) }
    {
        self.trusted();
        self.listed();
        Tally {
            phase: self.phase,
            legs: self.laid(),
            settled: self.table.settled,
            waiting: self.table.waiting,
            tried: self.tried,
        }
    }

    // The number of points of the hall, 0 where there is none. Constant time.
    pub fn points(&self) -> usize
        ensures value { result ≡ (state_of self.now).hall.points }
    {
        self.hall.points
    }

    // The value of a pair, if it is settled. Constant time.
    pub fn value(&self, from: usize, to: usize) -> Option<u32>
        ensures value { result ≡ value_of (pair_at (state_of self.now) from to) }
    {
        self.pair(from, to).ok()?.value()
    }
}
