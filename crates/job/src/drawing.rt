// The calls that draw pairs and spread them.
ghost use Rattle.std.specs.Prelude.{◌≡◌, ◌+◌, ◌<◌, ◌≤◌, false, IfOk, IfErr, Some, OnOk, OnErr, IsOkAnd, MatchResult};
ghost use Rattle.figures.specs.Limits.{value_limit};
ghost use Rattle.queue.specs.Meaning.{Least, taken};
ghost use Rattle.model.specs.Calls.{Abandons, Draws, Spreads, settle, drawn, from_of, to_of, spread as spread_of, spread_desk, spread_due};
ghost use Rattle.model.specs.Refusals.{Answers};
ghost use Rattle.model.specs.declared.Refusal.TheVariants.{Unfit};
ghost use Rattle.model.specs.declared.Phase.TheVariants.{Resting, Drawn};
ghost use Rattle.job.specs.Parts.{Drawable};
ghost use Rattle.job.specs.View.{state_of};

use crate::permits::{Docket, LayingPermit, Refused, RestingPermit};
use crate::state::Job;
use figures::VALUE_LIMIT;
use model::{Phase, Refusal};
use queue::{Entry, Queue};
use rules::Rule;

impl Job {
    // Settles the pair of an entry that the job notes, and answers its ends; its docket is out.
    fn settle(&mut self, entry: Entry) -> (usize, usize)
        requires { Drawable (state_of self.old) (Some entry) × (entry.key ≤ value_limit) }
        ensures value { result ≡ (from_of (state_of self.old) entry, to_of (state_of self.old) entry) }
        ensures after { state_of self.new ≡ drawn (state_of self.old) entry }
    {
        let from = entry.item / self.hall.points;
        let to = entry.item % self.hall.points;
        self.table.settle(entry);
        self.floor = entry.key;
        self.phase = Phase::Drawn { from, to };
        (from, to)
    }

    // Takes an entry that the job notes from the queue, and settles its pair: its ends. Refused where the queue does not
    // give it: a sound one that names it does.
    pub(crate) fn take<Q: Queue>(
        &mut self,
        entry: Entry,
        queue: &mut Q,
    ) -> Result<(usize, usize), Refusal>
        requires { Drawable (state_of self.old) (Some entry) }
        ensures value { Q.Queue.sound queue.old → Least (Q.Queue.meaning queue.old) (Some entry) → IsOkAnd result (λ ends. (ends.0 ≡ from_of (state_of self.old) entry) × (ends.1 ≡ to_of (state_of self.old) entry) × (state_of self.new ≡ drawn (state_of self.old) entry) × (Q.Queue.meaning queue.new ≡ taken (Q.Queue.meaning queue.old) entry.item entry.key)) }
        ensures keeps { Q.Queue.sound queue.old → Q.Queue.sound queue.new }
        ensures cases { MatchResult result (λ ends. self.new.phase ≡ Drawn ends.0 ends.1) (λ _. self.new ≡ self.old) }
    {
        if entry.key > VALUE_LIMIT || queue.take(entry.item).is_err() {
            return Err(Refusal::Unfit);
        }
        Ok(self.settle(entry))
    }

    // Spreads the drawn pair: each leg that leaves its far end is tried.
    pub(crate) fn spread_drawn<Q: Queue, R: Rule>(
        &mut self,
        from: usize,
        to: usize,
        queue: &mut Q,
        rule: &R,
    )
        requires { self.old.phase ≡ Drawn from to }
        ensures value { Q.Queue.sound queue.old → state_of self.new ≡ spread_of (R.Rule.joined rule.now) (state_of self.old) from to (Q.Queue.meaning queue.old) }
        ensures after { Q.Queue.sound queue.old → Q.Queue.meaning queue.new ≡ (spread_desk (R.Rule.joined rule.now) (state_of self.old) from to (Q.Queue.meaning queue.old)).queue }
        ensures keeps { Q.Queue.sound queue.old → Q.Queue.sound queue.new }
        ensures same { self.new.phase ≡ Resting }
    {
        self.tried += self
            .table
            .spread(&self.hall, from, to, self.floor, queue, rule);
        self.phase = Phase::Resting;
    }

    // Draws the entry that the queue names; the permit is the caller's to hand back.
    fn draw_named<Q: Queue>(&mut self, queue: &mut Q) -> Result<Docket, Refusal>
        ensures cases { Q.Queue.sound queue.old → Draws (λ x. x) (λ d. d.from) (λ d. d.to) (state_of self.old) (Q.Queue.meaning queue.old) (Q.Queue.named queue.old) result (state_of self.new) (Q.Queue.meaning queue.new) }
        ensures keeps { Q.Queue.sound queue.old → Q.Queue.sound queue.new }
        ensures same { OnErr result (self.new ≡ self.old) }
        ensures refused { Q.Queue.sound queue.old → OnErr result (queue.new ≡ queue.old) }
        ensures made { IfOk result (λ d. d.spent ≡ false) }
    {
        if !self.phase.is_resting() {
            return Err(Refusal::WrongPhase);
        }
        let named = self.fit(queue, self.opening.reach)?;
        let entry = named.ok_or(Refusal::NothingWaits)?;
        let (from, to) = self.take(entry, queue)?;
        Ok(Docket {
            from,
            to,
            spent: false,
        })
    }

    // Draws the entry that the queue names: its pair is settled at its key, and its docket handed out. Constant time
    // beside the queue's taking. Refused where the queue does not fit, and where nothing waits.
    pub fn draw<Q: Queue>(
        &mut self,
        permit: RestingPermit,
        queue: &mut Q,
    ) -> Result<Docket, Refused<RestingPermit>>
        ensures cases { Q.Queue.sound queue.old → Draws (λ x. x.refusal) (λ d. d.from) (λ d. d.to) (state_of self.old) (Q.Queue.meaning queue.old) (Q.Queue.named queue.old) result (state_of self.new) (Q.Queue.meaning queue.new) }
        ensures keeps { Q.Queue.sound queue.old → Q.Queue.sound queue.new }
        ensures same { IfErr result (λ x. (self.new ≡ self.old) × (x.token ≡ permit)) }
        ensures refused { Q.Queue.sound queue.old → OnErr result (queue.new ≡ queue.old) }
        ensures made { IfOk result (λ d. d.spent ≡ false) }
    {
        match self.draw_named(queue) {
            Ok(docket) => Ok(docket),
            Err(refusal) => Err(Refused {
                refusal,
                token: permit,
            }),
        }
    }

    // Whether a docket may be spread.
    fn spreads<Q: Queue, R: Rule>(
        &self,
        docket: &Docket,
        queue: &Q,
        rule: &R,
    ) -> Result<(), Refusal>
        ensures cases { Q.Queue.sound queue.now → Answers (spread_due (state_of self.now) docket.now.from docket.now.to (Q.Queue.meaning queue.now) (Q.Queue.named queue.now) (R.Rule.reaches rule.now (state_of self.now).hall.bound)) (λ x. x) result (Unit {0}) (λ _. Unit {0}) }
        ensures made { OnOk result (self.now.phase ≡ Drawn docket.now.from docket.now.to) }
    {
        if !self.phase.is_drawn(docket.from, docket.to) {
            return Err(Refusal::WrongPhase);
        }
        let reach = rule.reach(self.hall.bound);
        self.fit(queue, reach)?;
        Ok(())
    }

    // Spreads the drawn pair: each leg that leaves its far end is tried, the latest laid first.
    // Constant time for each leg beside the queue's offers. Refused where the queue or the rule does not fit.
    pub fn spread<Q: Queue, R: Rule>(
        &mut self,
        docket: Docket,
        queue: &mut Q,
        rule: &R,
    ) -> Result<RestingPermit, Refused<Docket>>
        ensures cases { Q.Queue.sound queue.old → Spreads (λ x. x.refusal) (R.Rule.joined rule.now) (R.Rule.reaches rule.now (state_of self.old).hall.bound) (state_of self.old) docket.from docket.to (Q.Queue.meaning queue.old) (Q.Queue.named queue.old) result (state_of self.new) (Q.Queue.meaning queue.new) }
        ensures keeps { Q.Queue.sound queue.old → Q.Queue.sound queue.new }
        ensures same { IfErr result (λ x. (self.new ≡ self.old) × (queue.new ≡ queue.old) × (x.token ≡ docket)) }
        ensures made { IfOk result (λ p. p.points ≡ (state_of self.old).hall.points) }
    {
        if let Err(refusal) = self.spreads(&docket, queue, rule) {
            return Err(Refused {
                refusal,
                token: docket,
            });
        }
        let points = self.hall.points;
        let (from, to) = docket.spend();
        self.spread_drawn(from, to, queue, rule);
        Ok(RestingPermit { points })
    }

    // Gives the drawn pair up: the table is emptied, and the legs stand. Constant time. Refused where the docket's pair is
    // not the drawn one; the docket is spent in any case.
    pub fn abandon(&mut self, docket: Docket) -> Result<LayingPermit, Refusal>
        ensures cases { Abandons (λ x. x) (state_of self.old) docket.from docket.to result (state_of self.new) }
        ensures same { OnErr result (self.new ≡ self.old) }
        ensures made { IfOk result (λ p. p.points ≡ (state_of self.old).hall.points) }
    {
        let (from, to) = docket.spend();
        if !self.phase.is_drawn(from, to) {
            return Err(Refusal::WrongPhase);
        }
        self.close(Phase::Laying);
        Ok(LayingPermit {
            points: self.hall.points,
        })
    }
}
