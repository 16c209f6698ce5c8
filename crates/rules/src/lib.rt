// Joining rules: how the value of a walk grows by one leg.
//
// A rule joins a value and a cost into a new value, and tells the reach of a bound: the most that joining a cost not
// above the bound can add. A call takes a value above its limit as the limit, and a cost or a bound above theirs
// likewise; what comes out is not cut. Each rule promises its meaning and the three laws. This crate knows nothing of
// halls, queues or jobs.
#![tactic(auto)]

ghost use Rattle.std.specs.Prelude.{◌≡◌, ℕ, ◌≤◌, min};
ghost use Rattle.figures.specs.Limits.{value_limit, cost_limit, dwell_limit};
ghost use Rattle.rules.specs.Laws.{Lawful};
ghost use Rattle.rules.specs.Meanings.{running_time, running_reach, worst_leg, worst_reach, Admits};
ghost use Rattle.rules.specs.Proved.{running_lawful, worst_lawful};

use figures::{COST_LIMIT, DWELL_LIMIT, OutOfRange, VALUE_LIMIT};

pub trait Rule {
    // The value and the cost, joined.
    ghost joined: { Self → ℕ → ℕ → ℕ };

    // The most that a cost not above the bound adds.
    ghost reaches: { Self → ℕ → ℕ };

    // Joining never lowers, keeps the order of values, and adds at most the reach.
    ghost lawful: { (rule : Self) → Lawful (joined rule) (reaches rule) };

    // The value joined with the cost.
    fn join(&self, value: u32, cost: u32) -> u32
        ensures { result ≡ joined self.now (min value value_limit) (min cost cost_limit) };

    // The most that a cost not above the bound adds.
    fn reach(&self, bound: u32) -> u32
        ensures { result ≡ reaches self.now (min bound cost_limit) };
}

// Running time: each leg takes its cost and a dwell.
#[derive(Drop, Debug)]
pub struct RunningTime {
    dwell: u32,
    ghost bound: { dwell ≤ dwell_limit },
}

impl RunningTime {
    // Refused where the dwell is above its limit.
    pub fn new(dwell: u32) -> Result<RunningTime, OutOfRange>
        ensures { Admits (λ t. t.dwell) dwell result }
    {
        if dwell > DWELL_LIMIT {
            return Err(OutOfRange);
        }
        Ok(RunningTime { dwell })
    }
}

impl Rule for RunningTime {
    ghost joined = { λ t. running_time t.dwell };

    ghost reaches = { λ t. running_reach t.dwell };

    ghost lawful = { λ t. running_lawful t.dwell t.bound };

    fn join(&self, value: u32, cost: u32) -> u32 {
        value.min(VALUE_LIMIT) + cost.min(COST_LIMIT) + self.dwell
    }

    fn reach(&self, bound: u32) -> u32 {
        self.dwell + bound.min(COST_LIMIT)
    }
}

// Worst leg: a walk is as bad as its worst leg.
#[derive(Drop, Debug)]
pub struct WorstLeg;

impl Rule for WorstLeg {
    ghost joined = { λ _. worst_leg };

    ghost reaches = { λ _. worst_reach };

    ghost lawful = { λ _. worst_lawful };

    fn join(&self, value: u32, cost: u32) -> u32 {
        value.min(VALUE_LIMIT).max(cost.min(COST_LIMIT))
    }

    fn reach(&self, bound: u32) -> u32 {
        bound.min(COST_LIMIT)
    }
}
