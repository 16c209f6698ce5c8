// Cheapest walks by a shared queue of pairs: the theory.
//
// It speaks of halls, walks and states of a search, and of no program, queue or byte. `search_stands` has all of its
// theorems in its contract; each function below it stands for some of them, and there is nothing to do.
#![tactic(auto)]

ghost use Rattle.walks.specs.Laws.{FrontIsKept, SettledStand, EntriesAtRest, Bounded, RoutesStand};
ghost use Rattle.walks.specs.Units.{CountsStand, TallyIsKept, UnitsSettle};
ghost use Rattle.walks.specs.Table.{TablesStand};

// The theory of the search, whole.
pub fn search_stands()
    ensures keeps { (FrontIsKept) × (TallyIsKept) }
    ensures value { (SettledStand) × (RoutesStand) }
    ensures cases { EntriesAtRest }
    ensures bound { Bounded }
    ensures len { (CountsStand) × (UnitsSettle) }
    ensures items { TablesStand }
{
    front_is_kept();
    tally_is_kept();
    settled_stand();
    routes_stand();
    entries_are_exact();
    values_are_bounded();
    counts_stand();
    units_settle();
    tables_stand();
}

// The front stands at the opening, and every event of a search keeps it.
pub fn front_is_kept()
    ensures { FrontIsKept }
{}

// What is settled is least, nearest first, and all of it when nothing waits.
pub fn settled_stand()
    ensures { SettledStand }
{}

// What waits at rest, and at which key.
pub fn entries_are_exact()
    ensures { EntriesAtRest }
{}

// How large values and keys grow.
pub fn values_are_bounded()
    ensures { Bounded }
{}

// Last legs followed back give a walk of the settled value, and no other route follows them.
pub fn routes_stand()
    ensures { RoutesStand }
{}

// The legs that leave a point, and the pairs that have a walk, are counted.
pub fn counts_stand()
    ensures { CountsStand }
{}

// The tally stands at the opening, and every event of a search keeps it.
pub fn tally_is_kept()
    ensures { TallyIsKept }
{}

// What units settle, and that every run has its front and its tally.
pub fn units_settle()
    ensures { UnitsSettle }
{}

// Writes to lists that keep pairs by their items are the events of a search.
pub fn tables_stand()
    ensures { TablesStand }
{}
