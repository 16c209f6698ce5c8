// The hall of a job: its points, its bound and its legs.
ghost use Rattle.std.specs.Prelude.{◌≡◌, ◌+◌, ◌*◌, ◌<◌, ◌≤◌, [], ◌∷◌, ◌++◌, length, map, slice_set, Some, vec_len, vec_capacity, IfOk, OnErr};
ghost use Rattle.chains.specs.Threads.{Chained};
ghost use Rattle.figures.specs.Limits.{value_limit, cost_limit};
ghost use Rattle.walks.specs.Hall.{leg};
ghost use Rattle.model.specs.State.{closed, leaving as legs_from, settled_in, waiting_in};
ghost use Rattle.model.specs.Calls.{Lays, tries, point_limit};
ghost use Rattle.model.specs.declared.Phase.TheVariants.{Laying};
ghost use Rattle.job.specs.Legs.{leg_of, nexts, first_of};
ghost use Rattle.job.specs.Parts.{desk};
ghost use Rattle.job.specs.Shape.{Roomy, Sized, Within, Threaded};

use crate::leg::Leg;
use crate::table::{Spread, try_leg};
use chains::Chain;
use model::{LEG_LIMIT, POINT_LIMIT, Pair, Refusal};
use queue::Queue;
use rules::Rule;
use std::alloc::{AllocError, Global};

#[derive(Drop)]
pub struct Hall {
    pub(crate) points: usize,
    pub(crate) bound: u32,
    // As laid. There is room for as many as may be, so laying never allocates.
    pub(crate) legs: Vec<Leg>,
    // For each point that may be the legs that leave it, the latest laid first. Boxed: an array in the job itself, read at a
    // place that varies, would keep the whole job in memory, which cost instructions for each leg tried.
    pub(crate) leaving: Box<[Chain; POINT_LIMIT]>,
    ghost roomy: { Roomy (vec_capacity legs) },
    ghost sized: { Sized points bound (vec_len legs) },
    ghost within: { Within points bound legs.items },
    ghost threaded: { Threaded points bound legs.items leaving.value },
}

// Puts a leg at the end of the legs, and in front of the chain of the point that it leaves. Constant time.
fn thread(legs: &mut Vec<Leg>, leaving: &mut [Chain], leg: Leg)
    requires { (vec_len legs.old < vec_capacity legs.old) × (leg.from < length leaving.old) }
    ensures items { map leg_of legs.new.items ≡ map leg_of legs.old.items ++ leg_of leg ∷ [] }
    ensures after { nexts legs.new.items ≡ nexts legs.old.items ++ first_of leaving.old leg.from ∷ [] }
    ensures value { leaving.new ≡ slice_set leaving.old leg.from (record { first = Some (vec_len legs.old) }) }
    ensures len { (vec_len legs.new ≡ vec_len legs.old + 1) × (leg.from < length leaving.new) }
    ensures bound { vec_capacity legs.new ≡ vec_capacity legs.old }
{
    let number = legs.len();
    let from = leg.from;
    let chain = leaving[from];
    legs.push_reserved(leg);
    leaving[from] = chain.pushed(legs.as_mut_slice(), number);
}

impl Hall {
    ghost use Rattle.job.specs.View.{hall_in};

    // The hall of no point. All the memory that it ever needs is got here; refused where there is too little.
    pub(crate) fn new(heap: Global) -> Result<Hall, AllocError>
        ensures { IfOk result (λ h. hall_in h ≡ record { points = 0; bound = 0; legs = [] }) }
    {
        let legs: Vec<Leg> = Vec::with_capacity(heap, LEG_LIMIT)?;
        let leaving = Box::new(heap, [Chain::new(); POINT_LIMIT])?;
        Ok(Hall {
            points: 0,
            bound: 0,
            legs,
            leaving,
        })
    }

    // Makes it a hall in which no leg stands.
    pub(crate) fn clear(&mut self, points: usize, bound: u32)
        requires { (points ≤ point_limit) × (bound ≤ cost_limit) }
        ensures { hall_in self.new ≡ record { points = points; bound = bound; legs = [] } }
    {
        self.points = points;
        self.bound = bound;
        self.legs.clear();
        *self.leaving = [Chain::new(); POINT_LIMIT];
    }

    // Lays a leg, and answers its number: it is put in front of the chain of the point that it leaves.
    pub(crate) fn lay(&mut self, from: usize, to: usize, cost: u32) -> Result<usize, Refusal>
        ensures cases { Lays (λ x. x) (closed Laying (hall_in self.old)) from to cost result (closed Laying (hall_in self.new)) }
        ensures same { OnErr result (self.new ≡ self.old) }
        ensures keeps { self.new.points ≡ self.old.points }
    {
        if from >= self.points || to >= self.points {
            return Err(Refusal::LegPoint);
        }
        if cost > self.bound {
            return Err(Refusal::LegCost);
        }
        let number = self.legs.len();
        if number >= LEG_LIMIT {
            return Err(Refusal::LegsFull);
        }
        let leg = Leg {
            from,
            to,
            cost,
            next: None,
        };
        thread(&mut self.legs, &mut *self.leaving, leg);
        Ok(number)
    }

    // The first of the legs that leave a point.
    fn first(&self, point: usize) -> Option<usize>
        requires { point < self.now.points }
        ensures { Chained (nexts self.now.legs.items) result (legs_from (hall_in self.now) point) }
    {
        self.leaving[point].first()
    }

    // The point that a leg leaves; 0 where there is no such leg.
    pub(crate) fn origin(&self, number: usize) -> usize
        ensures { result ≡ (leg (hall_in self.now) number).from }
    {
        self.legs.get(number).map_or(0, |leg| leg.from)
    }

    // Spreads a pair that is settled at the value: tries each leg that leaves its far end. Constant work for each leg. Along
    // the links: an iterator over them would count beside it, to be sure to end. The queue and the rule are lent to each call.
    pub(crate) fn spread<Q: Queue, R: Rule>(
        &self,
        from: usize,
        far: usize,
        value: u32,
        pairs: &mut [Pair],
        queue: &mut Q,
        rule: &R,
    ) -> Spread
        requires ends { (from < self.now.points) × (far < self.now.points) }
        requires value { value ≤ value_limit }
        requires len { length pairs.old ≡ self.now.points * self.now.points }
        ensures after { Q.Queue.sound queue.old → desk pairs.new (Q.Queue.meaning queue.new) ≡ tries (R.Rule.joined rule.now) (hall_in self.now) from value (legs_from (hall_in self.now) far) (desk pairs.old (Q.Queue.meaning queue.old)) }
        ensures keeps { Q.Queue.sound queue.old → Q.Queue.sound queue.new }
        ensures value { waiting_in pairs.new ≡ waiting_in pairs.old + result.fresh }
        ensures len { result.tried ≡ length (legs_from (hall_in self.now) far) }
        ensures bound { result.tried ≤ vec_len self.now.legs }
        ensures same { settled_in pairs.new ≡ settled_in pairs.old }
    {
        let legs = self.legs.as_slice();
        let row = from * self.points;
        let mut fresh = 0;
        let mut tried = 0;
        let mut next = self.first(far);
        while let Some(number) = next {
            let leg = legs[number];
            let key = rule.join(value, leg.cost);
            fresh += try_leg(pairs, queue, row + leg.to, key, number);
            tried += 1;
            next = leg.next;
        }
        Spread { fresh, tried }
    }
}
