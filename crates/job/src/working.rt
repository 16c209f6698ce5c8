// The call that works a job on.
ghost use Rattle.std.specs.Prelude.{◌≡◌, ◌<◌, ◌≤◌, true, IfOk, IfErr, OnOk, Some, IsOk};
ghost use Rattle.queue.specs.Meaning.{Least};
ghost use Rattle.model.specs.Calls.{Works, fits, after_unit, queue_after, work_due};
ghost use Rattle.model.specs.Refusals.{Answers};
ghost use Rattle.model.specs.declared.Phase.TheVariants.{Resting};
ghost use Rattle.job.specs.Parts.{Drawable};
ghost use Rattle.job.specs.Promise.{Trusted};
ghost use Rattle.job.specs.Units.{Ran};
ghost use Rattle.job.specs.View.{state_of};

use crate::permits::{Refused, RestingPermit};
use crate::state::Job;
use model::{BUDGET_LIMIT, Refusal};
use queue::{Entry, Queue};
use rules::Rule;

// What work did: how many pairs it settled.
#[derive(Drop)]
pub struct Worked {
    pub settled: u32,
    pub permit: RestingPermit,
}

impl Job {
    // Does a unit: the entry that the queue names is drawn, and its pair spread. Refused where the queue does not give it:
    // a sound one does.
    fn unit<Q: Queue, R: Rule>(
        &mut self,
        entry: Entry,
        queue: &mut Q,
        rule: &R,
    ) -> Result<(), Refusal>
        requires { Drawable (state_of self.old) (Some entry) }
        ensures value { Q.Queue.sound queue.old → Least (Q.Queue.meaning queue.old) (Some entry) → (IsOk result) × (state_of self.new ≡ after_unit (R.Rule.joined rule.now) (state_of self.old) (Q.Queue.meaning queue.old) entry) }
        ensures after { Q.Queue.sound queue.old → Least (Q.Queue.meaning queue.old) (Some entry) → Q.Queue.meaning queue.new ≡ queue_after (R.Rule.joined rule.now) (state_of self.old) (Q.Queue.meaning queue.old) entry }
        ensures keeps { Q.Queue.sound queue.old → Q.Queue.sound queue.new }
        ensures same { self.new.phase ≡ Resting }
    {
        let (from, to) = self.take(entry, queue)?;
        self.spread_drawn(from, to, queue, rule);
        Ok(())
    }

    // Does units until the budget is spent, nothing waits, or the queue fits no more; and answers how many. The queue and the
    // rule are lent to each call, so that no struct keeps the parameters.
    fn run<Q: Queue, R: Rule>(
        &mut self,
        named: Option<Entry>,
        queue: &mut Q,
        rule: &R,
        reach: u32,
        budget: u32,
    ) -> u32
        requires { Drawable (state_of self.old) named }
        ensures value { Q.Queue.sound queue.old → Least (Q.Queue.meaning queue.old) named → fits (state_of self.old) (Q.Queue.meaning queue.old) named reach ≡ true → Ran (R.Rule.joined rule.now) reach budget (state_of self.old) (Q.Queue.meaning queue.old) result (state_of self.new) (Q.Queue.meaning queue.new) }
        ensures keeps { Q.Queue.sound queue.old → Q.Queue.sound queue.new }
    {
        let mut next = named;
        for done in 0..budget {
            let Some(entry) = next else {
                return done;
            };
            if self.unit(entry, queue, rule).is_err() {
                return done;
            }
            match self.fit(queue, reach) {
                Ok(least) => next = least,
                Err(_) => return done + 1,
            }
        }
        budget
    }

    // Whether work may be done; if so, the rule's reach and the entry that the queue names. Neither the rule nor the queue is
    // asked where the phase or the budget refuses it.
    fn works<Q: Queue, R: Rule>(
        &self,
        queue: &Q,
        rule: &R,
        budget: u32,
    ) -> Result<(u32, Option<Entry>), Refusal>
        ensures cases { Q.Queue.sound queue.now → Answers (work_due (state_of self.now) (Q.Queue.meaning queue.now) (Q.Queue.named queue.now) (R.Rule.reaches rule.now (state_of self.now).hall.bound) budget) (λ x. x) result (Unit {0}) (λ fit. (fit.0 ≡ R.Rule.reaches rule.now (state_of self.now).hall.bound) × (fit.1 ≡ Q.Queue.named queue.now) × (fits (state_of self.now) (Q.Queue.meaning queue.now) fit.1 fit.0 ≡ true)) }
        ensures made { IfOk result (λ fit. Drawable (state_of self.now) fit.1) }
        ensures bound { Q.Queue.sound queue.now → OnOk result (Least (Q.Queue.meaning queue.now) (Q.Queue.named queue.now)) }
    {
        if !self.phase.is_resting() {
            return Err(Refusal::WrongPhase);
        }
        if budget > BUDGET_LIMIT {
            return Err(Refusal::Budget);
        }
        let reach = rule.reach(self.hall.bound);
        let named = self.fit(queue, reach)?;
        Ok((reach, named))
    }

    // Draws and spreads pairs until the budget is spent, nothing waits, or the queue fits no more. One unit is a
    // drawing with its spreading. Refused where the budget is above 65,535, or the queue or the rule does not fit.
    pub fn work<Q: Queue, R: Rule>(
        &mut self,
        permit: RestingPermit,
        queue: &mut Q,
        rule: &R,
        budget: u32,
    ) -> Result<Worked, Refused<RestingPermit>>
        ensures cases { Q.Queue.sound queue.old → Works (λ x. x.refusal) (λ w. w.settled) (R.Rule.joined rule.now) (R.Rule.reaches rule.now (state_of self.old).hall.bound) (state_of self.old) (Q.Queue.meaning queue.old) (Q.Queue.named queue.old) budget result (state_of self.new) (Q.Queue.meaning queue.new) }
        ensures keeps { Q.Queue.sound queue.old → Q.Queue.sound queue.new }
        ensures same { IfErr result (λ x. (self.new ≡ self.old) × (queue.new ≡ queue.old) × (x.token ≡ permit)) }
        ensures made { IfOk result (λ w. w.permit ≡ permit) }
        ensures law { Trusted (state_of self.old) }
    {
        self.trusted();
        match self.works(queue, rule, budget) {
            Ok((reach, named)) => {
                let settled = self.run(named, queue, rule, reach, budget);
                Ok(Worked { settled, permit })
            }
            Err(refusal) => Err(Refused {
                refusal,
                token: permit,
            }),
        }
    }
}
