// The calls that make a hall and lay its legs.
ghost use Rattle.std.specs.Prelude.{◌≡◌, ◌≤◌, true, false, [], IfOk, IfErr, OnErr};
ghost use Rattle.figures.specs.Limits.{cost_limit};
ghost use Rattle.model.specs.Calls.{Makes, Lays, Reopens, point_limit};
ghost use Rattle.model.specs.State.{blank as no_hall, closed, is_open};
ghost use Rattle.job.specs.Shape.{has_hall};
ghost use Rattle.job.specs.View.{state_of};

use crate::hall::Hall;
use crate::permits::{LayingPermit, Refused, RestingPermit};
use crate::state::Job;
use crate::table::Table;
use figures::COST_LIMIT;
use model::{Opening, POINT_LIMIT, Phase, Refusal};
use std::alloc::{AllocError, Global};

// What a job that is not open was opened with.
const UNOPENED: Opening = Opening {
    reach: 0,
    capacity: 0,
    band: 0,
};

impl Job {
    // A job without a hall. All the memory that it ever needs is got here; refused where there is too little.
    pub fn new(heap: Global) -> Result<Job, AllocError>
        ensures { IfOk result (λ j. state_of j ≡ no_hall) }
    {
        let hall = Hall::new(heap)?;
        let table = Table::new(heap)?;
        Ok(Job {
            phase: Phase::Blank,
            hall,
            table,
            opening: UNOPENED,
            floor: 0,
            tried: 0,
        })
    }

    // Leaves a job that is not open: the table is emptied, and the legs stand.
    pub(crate) fn close(&mut self, phase: Phase)
        requires { (is_open phase ≡ false) × (has_hall phase ≡ true → 1 ≤ (state_of self.old).hall.points) }
        ensures { state_of self.new ≡ closed phase (state_of self.old).hall }
    {
        self.phase = phase;
        self.table.clear();
        self.opening = UNOPENED;
        self.floor = 0;
        self.tried = 0;
    }

    // Clears the job: a hall in which no leg stands, and no table. That the points are few is asked here and in three
    // functions below it: a type for it would hold the one number, and each of them would open it at once.
    fn reset(&mut self, phase: Phase, points: usize, bound: u32)
        requires { (is_open phase ≡ false) × (has_hall phase ≡ true → 1 ≤ points) × (points ≤ point_limit) × (bound ≤ cost_limit) }
        ensures { state_of self.new ≡ closed phase (record { points = points; bound = bound; legs = [] }) }
    {
        self.close(Phase::Blank);
        self.hall.clear(points, bound);
        self.phase = phase;
    }

    // Takes the hall away, in any phase. Time by the 40 points that may be.
    pub fn blank(&mut self)
        ensures { state_of self.new ≡ no_hall }
    {
        self.reset(Phase::Blank, 0, 0);
    }

    // Makes a hall in which no leg stands, in any phase. Time by the 40 points that may be. Refused where the points are
    // not 1 to 40, or the bound not 1 to 4,095.
    pub fn make(&mut self, points: usize, bound: u32) -> Result<LayingPermit, Refusal>
        ensures cases { Makes (λ x. x) (state_of self.old) points bound result (state_of self.new) }
        ensures same { OnErr result (self.new ≡ self.old) }
        ensures made { IfOk result (λ p. p.points ≡ points) }
    {
        if !(1..=POINT_LIMIT).contains(&points) {
            return Err(Refusal::Points);
        }
        if !(1..=COST_LIMIT).contains(&bound) {
            return Err(Refusal::Bound);
        }
        self.reset(Phase::Laying, points, bound);
        Ok(LayingPermit { points })
    }

    // Lays a leg, and answers its number. Constant time, and no memory is got. Refused where an end is no point, the cost
    // is above the bound, or 1,600 legs stand.
    pub fn lay(
        &mut self,
        _permit: &LayingPermit,
        from: usize,
        to: usize,
        cost: u32,
    ) -> Result<usize, Refusal>
        ensures cases { Lays (λ x. x) (state_of self.old) from to cost result (state_of self.new) }
        ensures same { OnErr result (self.new ≡ self.old) }
    {
        if !self.phase.is_laying() {
            return Err(Refusal::WrongPhase);
        }
        self.hall.lay(from, to, cost)
    }

    // Closes the job: the table is emptied, and the legs stand. Constant time. Refused unless the job rests.
    pub fn reopen(&mut self, permit: RestingPermit) -> Result<LayingPermit, Refused<RestingPermit>>
        ensures cases { Reopens (λ x. x.refusal) (state_of self.old) result (state_of self.new) }
        ensures same { IfErr result (λ x. (self.new ≡ self.old) × (x.token ≡ permit)) }
        ensures made { IfOk result (λ p. p.points ≡ (state_of self.old).hall.points) }
    {
        if !self.phase.is_resting() {
            return Err(Refused {
                refusal: Refusal::WrongPhase,
                token: permit,
            });
        }
        self.close(Phase::Laying);
        Ok(LayingPermit {
            points: self.hall.points,
        })
    }
}
