// The table maker: from the bytes of a sheet to the listing of its hall's least walk values.
//
// A job takes the sheet, is opened on a wheel over a ring by running time without dwell, is worked until nothing waits,
// and its table is listed. A sheet that does not obey the rules of a sheet is answered by a line that tells the fault. It
// promises the whole, from bytes to bytes, and reads and writes nothing outside them.
#![tactic(auto)]

ghost use Rattle.std.specs.Prelude.{◌≡◌, IfOk, OnOk};
ghost use Rattle.walks.specs.Hall.{Hall};
ghost use Rattle.job.specs.View.{state_of};
ghost use Rattle.intake.specs.Sheets.{Obeys, Due};
ghost use Rattle.listing.specs.Listing.{listing};
ghost use Rattle.maker.specs.Lists.{ListsJob};
ghost use Rattle.maker.specs.Replies.{Lists, Tells, Replies};
ghost use Rattle.maker.specs.Tables.{by_time, Tabled, cells, Ready, Suits};
ghost use Rattle.maker.specs.declared.Unanswered.TheVariants.{OutOfMemory};

use chains::Chain;
use intake::{SheetFault, take_sheet};
use job::{Job, LayingPermit};
use listing::Table;
use model::{BUDGET_LIMIT, Refusal};
use queue::Queue;
use ring::{Cell, Ring};
use rules::RunningTime;
use std::alloc::{AllocError, Global};
use wheel::Wheel;

// Slots of the ring, and how wide a compartment of the wheel is.
const SLOTS: usize = 64;
// Cells of the ring, one for each pair of the largest hall.
const CELLS: usize = 1_600;

// Why bytes are not answered by a listing.
#[derive(Debug, Drop)]
pub enum Unanswered {
    // They are not the sheet of a hall: the line that tells what is wrong with them.
    Fault(String),
    // There was too little memory.
    OutOfMemory,
}

impl From<AllocError> for Unanswered {
    ghost from_gives = { λ _ e. e ≡ OutOfMemory };

    fn from(_refused: AllocError) -> Unanswered {
        Unanswered::OutOfMemory
    }
}

// The table of a job, to be listed.
#[derive(Drop)]
struct Values<'a> {
    job: &'a Job,
}

impl Table for Values<'_> {
    ghost size = { λ t. t.job.now.hall.points };

    ghost cell = { λ t. cells (state_of t.job.now) };

    ghost few = { λ t. t.job.now.hall.sized.0 };

    fn points(&self) -> usize {
        self.job.points()
    }

    fn value(&self, from: usize, to: usize) -> Option<u32> {
        self.job.value(from, to)
    }
}

// Opens a job, by running time without dwell, and works it until nothing waits: there are more units than pairs.
fn finish<Q: Queue>(job: &mut Job, permit: LayingPermit, queue: &mut Q)
    requires sound { Q.Queue.sound queue.old }
    requires suits { Suits (Q.Queue.meaning queue.old) }
    requires ready { Ready (state_of job.old) }
    ensures value { Tabled by_time (state_of job.old).hall (cells (state_of job.new)) }
    ensures same { (state_of job.new).hall ≡ (state_of job.old).hall }
{
    let rule = RunningTime::new(0).unwrap();
    let permit = job.open(permit, queue, &rule).unwrap();
    // The entry that the queue names is one of least key, so that the job is fit to work.
    let _ = queue.least();
    let _ = job.work(permit, queue, &rule, BUDGET_LIMIT).unwrap();
}

// Makes the table of a job's hall.
fn make_table(heap: Global, job: &mut Job, permit: LayingPermit) -> Result<(), AllocError>
    requires { Ready (state_of job.old) }
    ensures value { OnOk result (Tabled by_time (state_of job.old).hall (cells (state_of job.new))) }
    ensures same { OnOk result ((state_of job.new).hall ≡ (state_of job.old).hall) }
{
    let mut slots = [Chain::new(); SLOTS];
    let mut cells = [Cell::new(); CELLS];
    let ring = Ring::new(&mut slots, &mut cells);
    let mut queue = Wheel::new(heap, SLOTS as u32, ring)?;
    finish(job, permit, &mut queue);
    Ok(())
}

// The listing of a job's table.
fn listed(heap: Global, job: &Job) -> Result<Vec<u8>, AllocError>
    ensures made { IfOk result (λ v. v.items ≡ listing (state_of job.now).hall.points (cells (state_of job.now))) }
{
    listing::bytes(heap, &Values { job })
}

// Writes the listing of a finished job at the front of a buffer, and answers its length. Refused where the job is not
// resting, where something waits, and where the buffer is too short.
pub fn list(job: &Job, buffer: &mut [u8]) -> Result<usize, Refusal>
    ensures cases { ListsJob (state_of job.now) buffer.old result buffer.new }
{
    let tally = job.tally();
    if !tally.phase.is_resting() {
        return Err(Refusal::WrongPhase);
    }
    if tally.waiting > 0 {
        return Err(Refusal::Unfinished);
    }
    listing::write(&Values { job }, buffer).map_err(|_| Refusal::BufferShort)
}

// The answer to a sheet that is at fault. No `From`, since it needs memory.
fn refused(heap: Global, fault: SheetFault) -> Unanswered
    ensures { Tells fault (Err result) }
{
    match format!(in heap; "{fault}\n") {
        Ok(line) => Unanswered::Fault(line),
        Err(error) => error.into(),
    }
}

// Answers any bytes: the listing of the least walk values of the hall of which they are the sheet, or the fault that is
// due; to the sheet of a valid hall always its listing, and where a fault is due always its line. Time by the bytes, and
// by pairs and legs for the table. Refused for a fault, or for want of memory.
pub fn answer(heap: Global, sheet: &[u8]) -> Result<Vec<u8>, Unanswered>
    ensures made { Replies sheet.now result }
    ensures bound { (h : Hall) → Obeys sheet.now h → Lists h result }
    ensures refused { (f : SheetFault) → Due sheet.now f → Tells f result }
{
    let mut job = Job::new(heap)?;
    let permit = take_sheet(&mut job, sheet).map_err(|fault| refused(heap, fault))?;
    make_table(heap, &mut job, permit)?;
    Ok(listed(heap, &job)?)
}
