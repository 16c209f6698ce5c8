// A job: a hall of points and legs, and the table of all its pairs, made with a queue and a rule that are lent to each
// call.
//
// A job is blank, laying, resting or drawn, and each call's token says in which of them it may be made. What every call
// answers and what it leaves is stated over a job's state by the definitions of the crate `model`; what needs a sound
// queue for its promise is still safe, and ends, with any other. The law over every list of calls stands on `work` and
// `tally`. Memory is got only when a job is made anew. A job knows no kind of queue or rule, and no bytes; a refused call
// touches nothing.
#![tactic(auto)]

mod asking;
mod drawing;
mod hall;
mod laying;
mod leg;
mod opening;
mod permits;
mod state;
mod table;
mod working;

pub use permits::{Docket, LayingPermit, Refused, RestingPermit};
pub use state::Job;
pub use working::Worked;
