// The call that opens a job.
ghost use Rattle.std.specs.Prelude.{◌≡◌, ◌+◌, ◌*◌, ◌<◌, ◌≤◌, true, replicate, IfOk, IfErr, OnOk, vec_len, vec_capacity};
ghost use Rattle.queue.specs.Meaning.{capacity as room};
ghost use Rattle.model.specs.Calls.{Opens, open_due, start_queue, start_table};
ghost use Rattle.model.specs.Refusals.{Answers};
ghost use Rattle.model.specs.State.{JobState, is_laying};
ghost use Rattle.model.specs.declared.Pair.TheVariants.{Unseen};
ghost use Rattle.model.specs.declared.Phase.TheVariants.{Resting, Laying};
ghost use Rattle.job.specs.Legs.{hall_of};
ghost use Rattle.job.specs.View.{state_of};

use crate::permits::{LayingPermit, Refused, RestingPermit};
use crate::state::Job;
use figures::VALUE_LIMIT;
use model::{Opening, Phase, Refusal};
use queue::Queue;
use rules::Rule;

impl Job {
    // Begins the table: every pair of a point and itself waits at 0.
    fn begin<Q: Queue>(&mut self, opening: Opening, queue: &mut Q)
        requires { is_laying self.old.phase ≡ true }
        ensures value { state_of self.new ≡ record { phase = Resting; hall = (state_of self.old).hall; table = start_table (state_of self.old).hall.points (state_of self.old).hall.points; opening = opening; floor = 0; tried = 0 } }
        ensures after { Q.Queue.sound queue.old → (state_of self.old).hall.points * (state_of self.old).hall.points ≤ room (Q.Queue.meaning queue.old) → Q.Queue.meaning queue.new ≡ start_queue (state_of self.old).hall.points (state_of self.old).hall.points (Q.Queue.meaning queue.old) }
        ensures keeps { Q.Queue.sound queue.old → Q.Queue.sound queue.new }
    {
        self.table.start(self.hall.points, queue);
        self.opening = opening;
        self.phase = Phase::Resting;
    }

    // What the job would be opened with, if it may be.
    fn opens<Q: Queue, R: Rule>(&self, queue: &Q, rule: &R) -> Result<Opening, Refusal>
        ensures cases { Q.Queue.sound queue.now → Answers (open_due (state_of self.now) (Q.Queue.meaning queue.now) (R.Rule.reaches rule.now (state_of self.now).hall.bound)) (λ x. x) result (Unit {0}) (λ o. (o ≡ record { reach = R.Rule.reaches rule.now (state_of self.now).hall.bound; capacity = room (Q.Queue.meaning queue.now); band = (Q.Queue.meaning queue.now).band }) × ((state_of self.now).hall.points * (state_of self.now).hall.points ≤ room (Q.Queue.meaning queue.now))) }
        ensures made { OnOk result (is_laying self.now.phase ≡ true) }
    {
        if !self.phase.is_laying() {
            return Err(Refusal::WrongPhase);
        }
        let points = self.hall.points;
        let reach = rule.reach(self.hall.bound);
        if points * reach as usize > VALUE_LIMIT as usize {
            return Err(Refusal::Range);
        }
        let capacity = queue.capacity();
        if capacity < points * points {
            return Err(Refusal::Capacity);
        }
        let band = queue.band();
        if band < reach {
            return Err(Refusal::Band);
        }
        Ok(Opening {
            reach,
            capacity,
            band,
        })
    }

    // Opens the job: the queue is cleared, and each point waits for itself at 0. Time by the pairs and the queue's
    // clearing. Refused where values could pass the largest key, and where the queue has too few items or too small a band.
    pub fn open<Q: Queue, R: Rule>(
        &mut self,
        permit: LayingPermit,
        queue: &mut Q,
        rule: &R,
    ) -> Result<RestingPermit, Refused<LayingPermit>>
        ensures cases { Q.Queue.sound queue.old → Opens (λ x. x.refusal) (state_of self.old) (Q.Queue.meaning queue.old) (R.Rule.reaches rule.now (state_of self.old).hall.bound) result (state_of self.new) (Q.Queue.meaning queue.new) }
        ensures keeps { Q.Queue.sound queue.old → Q.Queue.sound queue.new }
        ensures same { IfErr result (λ x. (self.new ≡ self.old) × (queue.new ≡ queue.old) × (x.token ≡ permit)) }
        ensures made { IfOk result (λ p. p.points ≡ (state_of self.old).hall.points) }
    {
        let points = self.hall.points;
        match self.opens(queue, rule) {
            Ok(opening) => {
                self.begin(opening, queue);
                Ok(RestingPermit { points })
            }
            Err(refusal) => Err(Refused {
                refusal,
                token: permit,
            }),
        }
    }
}
