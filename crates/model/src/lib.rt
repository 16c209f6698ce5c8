// The words of a job: its phases, what is known of a pair, what a call answers and why it is refused.
//
// The definitions here say what every call of a job does, over a job's state and a queue's meaning; the crate `job` has
// the calls themselves. This crate promises what phases and pairs tell of themselves, and the refusals' numbers and texts;
// it has no job, no queue and no bytes.
#![tactic(auto)]

ghost use Rattle.std.specs.Prelude.{◌≡◌, Some};
ghost use Rattle.model.specs.Refusals.{refusal_number, refusal_text};
ghost use Rattle.model.specs.State.{is_laying, is_resting, is_open, is_drawn, value_of, noted_key, last_leg};

use std::error::Error;
use std::fmt;

// The most points of a hall.
pub const POINT_LIMIT: usize = 40;
// The most legs of a hall.
pub const LEG_LIMIT: usize = 1_600;
// The most units that work is given at once.
pub const BUDGET_LIMIT: u32 = 65_535;

// What a job may be asked to do.
#[derive(Clone, Copy, PartialEq, Eq, Debug)]
pub enum Phase {
    // There is no hall.
    Blank,
    // Legs may be laid.
    Laying,
    // The table is being made; it is finished where nothing waits.
    Resting,
    // A pair was drawn, and its docket is out.
    Drawn { from: usize, to: usize },
}

impl Phase {
    // Whether legs may be laid.
    pub fn is_laying(self) -> bool
        ensures { result ≡ is_laying self }
    {
        matches!(self, Phase::Laying)
    }

    // Whether the job is open, and no docket is out.
    pub fn is_resting(self) -> bool
        ensures { result ≡ is_resting self }
    {
        matches!(self, Phase::Resting)
    }

    // Whether there is a table.
    pub fn is_open(self) -> bool
        ensures { result ≡ is_open self }
    {
        matches!(self, Phase::Resting | Phase::Drawn { .. })
    }

    // Whether the pair of two points is the drawn one.
    pub fn is_drawn(self, from: usize, to: usize) -> bool
        ensures { result ≡ is_drawn self from to }
    {
        matches!(self, Phase::Drawn { from: start, to: far } if start == from && far == to)
    }
}

// What is known of a pair. The last leg is that of the best walk so far, none for a start's own pair.
#[derive(Clone, Copy, PartialEq, Eq, Debug)]
pub enum Pair {
    // No walk was found yet.
    Unseen,
    // It waits in the queue at the key.
    Waiting { key: u32, last: Option<usize> },
    // The value is its least.
    Settled { value: u32, last: Option<usize> },
}

impl Pair {
    // The value of a settled pair.
    pub fn value(self) -> Option<u32>
        ensures { result ≡ value_of self }
    {
        match self {
            Pair::Settled { value, .. } => Some(value),
            Pair::Unseen | Pair::Waiting { .. } => None,
        }
    }

    // The key of a waiting pair.
    pub fn key(self) -> Option<u32>
        ensures { result ≡ noted_key self }
    {
        match self {
            Pair::Waiting { key, .. } => Some(key),
            Pair::Unseen | Pair::Settled { .. } => None,
        }
    }

    // The last leg of the best walk so far.
    pub fn last(self) -> Option<usize>
        ensures { result ≡ last_leg self }
    {
        match self {
            Pair::Waiting { last, .. } | Pair::Settled { last, .. } => last,
            Pair::Unseen => None,
        }
    }
}

// What a job was opened with: the reach of its bound, and the queue's capacity and band.
#[derive(Clone, Copy, PartialEq, Eq, Debug)]
pub struct Opening {
    pub reach: u32,
    pub capacity: usize,
    pub band: u32,
}

// What a look-up answers. Three cases, two of them with a value: an `Option` or a `Result` has two.
#[derive(Clone, Copy, PartialEq, Eq, Debug)]
pub enum Answer {
    // The pair is settled at its value, by a walk with this last leg.
    Value { value: u32, last: Option<usize> },
    // The job is finished, and there is no walk.
    NoWay,
    // The job is not finished, and the pair is not settled; every value below the floor is.
    NotYet { floor: u32 },
}

// The phase, how many legs are laid, and for an open job how many pairs are settled, how many wait, and how many legs
// were tried.
#[derive(Clone, Copy, PartialEq, Eq, Debug)]
pub struct Tally {
    pub phase: Phase,
    pub legs: usize,
    pub settled: usize,
    pub waiting: usize,
    pub tried: usize,
}

// Why a call of a job is refused.
#[derive(Clone, Copy, PartialEq, Eq, Debug)]
pub enum Refusal {
    // Points not 1 to 40.
    Points = 1,
    // Bound not 1 to 4,095.
    Bound = 2,
    // A leg's point is not below the number of points.
    LegPoint = 3,
    // A leg's cost is above the bound.
    LegCost = 4,
    // As many legs stand as may.
    LegsFull = 5,
    // The queue's capacity is below the number of pairs.
    Capacity = 6,
    // The queue's band is below the reach of the bound.
    Band = 7,
    // Values could pass the largest key.
    Range = 8,
    // The job is in another phase, or the docket's pair is not the drawn one.
    WrongPhase = 10,
    // The queue or the rule does not fit the job.
    Unfit = 11,
    // A point is not below the number of points.
    NoSuchPoint = 12,
    // The buffer is too short.
    BufferShort = 13,
    // The pair is not settled.
    Unsettled = 14,
    // Nothing waits for a drawing.
    NothingWaits = 15,
    // The job is not finished.
    Unfinished = 16,
    // The budget is above 65,535.
    Budget = 17,
}

// The refusal's number.
impl From<Refusal> for u32 {
    ghost from_gives = { λ r n. n ≡ refusal_number r };

    fn from(refusal: Refusal) -> u32 {
        refusal as u32
    }
}

// What is said of the refusal.
impl fmt::Display for Refusal {
    ghost output = { λ r. Some (refusal_text r) };

    fn fmt<W: fmt::Write>(&self, f: &mut fmt::Formatter<W>) -> fmt::Result {
        f.write_str(match self {
            Refusal::Points => "points not 1 to 40",
            Refusal::Bound => "bound not 1 to 4095",
            Refusal::LegPoint => "a leg's point is none of the hall",
            Refusal::LegCost => "a leg's cost is above the bound",
            Refusal::LegsFull => "as many legs stand as may",
            Refusal::Capacity => "the queue has too few items",
            Refusal::Band => "the queue's band is too small",
            Refusal::Range => "values could pass the largest key",
            Refusal::WrongPhase => "the job is in another phase",
            Refusal::Unfit => "the queue or the rule does not fit the job",
            Refusal::NoSuchPoint => "there is no such point",
            Refusal::BufferShort => "the buffer is too short",
            Refusal::Unsettled => "the pair is not settled",
            Refusal::NothingWaits => "nothing waits for a drawing",
            Refusal::Unfinished => "the job is not finished",
            Refusal::Budget => "the budget is above 65535",
        })
    }
}

impl Error for Refusal {}
