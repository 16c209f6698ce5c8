// The tokens that calls of a job hand out and take back. Each phase of a job has its own.
ghost use Rattle.std.specs.Prelude.{◌≡◌, true, Some};

use model::Refusal;
use std::error::Error;
use std::fmt;

// Two types and not one `Permit<S>`: they have no methods, so it would need two types for S and a field to hold one.

// Legs may be laid.
#[derive(Drop, Debug)]
pub struct LayingPermit {
    // The number of points of the hall.
    pub(crate) points: usize,
}

// The job is open, and no docket is out.
#[derive(Drop, Debug)]
pub struct RestingPermit {
    // The number of points of the hall.
    pub(crate) points: usize,
}

// A pair that was drawn. It is spent by a call: one that is let fall before is refused by the prover. By a flag and not by a
// type without `Drop`: that would be refused before the prover, so that no edit could show what is proved.
#[derive(Debug)]
pub struct Docket {
    pub(crate) from: usize,
    pub(crate) to: usize,
    pub(crate) spent: bool,
}

impl Docket {
    // The start of the drawn pair.
    pub fn from(&self) -> usize
        ensures { result ≡ self.now.from }
    {
        self.from
    }

    // The far end of the drawn pair.
    pub fn to(&self) -> usize
        ensures { result ≡ self.now.to }
    {
        self.to
    }

    // Spends the docket, and answers its pair.
    pub(crate) fn spend(mut self) -> (usize, usize)
        ensures { result ≡ (self.from, self.to) }
    {
        self.spent = true;
        (self.from, self.to)
    }
}

impl Drop for Docket {
    fn drop(self)
        requires { self.spent ≡ true }
    {
        let Docket {
            from: _,
            to: _,
            spent: _,
        } = self;
    }
}

// Why a call was refused, and the token that it took: it is handed back. The calls make it by a `match`: through `map_err` the
// answer would be known by the closure's contract alone, and the clause on it stayed open.
#[derive(Drop, Debug)]
pub struct Refused<T> {
    pub refusal: Refusal,
    pub token: T,
}

// It says why.
impl<T> fmt::Display for Refused<T> {
    ghost use Rattle.model.specs.Refusals.{refusal_text};

    ghost output = { λ refused. Some (refusal_text refused.refusal) };

    fn fmt<W: fmt::Write>(&self, f: &mut fmt::Formatter<W>) -> fmt::Result {
        fmt::Display::fmt(&self.refusal, f)
    }
}

impl<T: fmt::Debug + Drop> Error for Refused<T> {}
