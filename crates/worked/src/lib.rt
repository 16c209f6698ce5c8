// Worked cases: one small hall and some figures, and what comes of them, proved as one theorem over their list.
//
// A case says what holds after every list of calls, with every queue and every answer that the contracts of the calls
// allow, by the definitions that those contracts cite. It has no code that does anything.
#![tactic(auto)]

ghost use Rattle.std.specs.Prelude.{◌≡◌, length};
ghost use Rattle.std.specs.List.{AllByRecursion};
ghost use Rattle.worked.specs.Cases.{Holds, cases};

// Every case holds; it answers how many there are.
pub fn cases_hold() -> usize
    ensures value { result ≡ length cases }
    ensures keeps { AllByRecursion Holds cases }
{
    shown()
}

// What its proof file shows.
fn shown() -> usize
    ensures value { result ≡ length cases }
    ensures keeps { AllByRecursion Holds cases }
{
    21
}
