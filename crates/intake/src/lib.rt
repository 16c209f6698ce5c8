// Taking a sheet into a job: its first line makes the hall, its leg lines lay the legs.
//
// Faults of form come from the reader, layer S; faults of a line's numbers come from the job, layer J, after the line's
// end was read. A refused sheet leaves a blank job. It promises the hall of the sheet or the one fault that is due, and
// touches no queue and no table.
#![tactic(auto)]

ghost use Rattle.std.specs.Prelude.{◌≡◌, ◌≢◌, false, List, Some};
ghost use Rattle.queue.specs.Meaning.{Meaning};
ghost use Rattle.walks.specs.Hall.{Hall};
ghost use Rattle.job.specs.View.{state_of};
ghost use Rattle.sheet.specs.Readers.{standing};
ghost use Rattle.sheet.specs.Records.{kind_of, numbers};
ghost use Rattle.runs.specs.Lists.{Rule, Call, Run};
ghost use Rattle.intake.specs.Faults.{cause_number, layer_of, layer_letter, fault, fault_text};
ghost use Rattle.intake.specs.Sheets.{Obeys, Due, OneAnswer, Takes, Exactly, Refuses, Continues};
ghost use Rattle.intake.specs.Steps.{Starts, TakesLine, Took};
ghost use Rattle.intake.specs.declared.Cause.TheVariants.{Form};

use job::{Job, LayingPermit};
use model::Refusal;
use sheet::{Fault, FormFault, Kind, Reader, Record};
use std::error::Error;
use std::fmt;

// What is wrong with a line: its form, or the numbers that it has.
#[derive(Clone, Copy, PartialEq, Eq, Debug)]
pub enum Cause {
    Form(FormFault),
    Numbers(Refusal),
}

// The number of the fault of form, 30 to 35, or of the refusal, 1 to 17.
impl From<Cause> for u32 {
    ghost from_gives = { λ c n. n ≡ cause_number c };

    fn from(cause: Cause) -> u32 {
        match cause {
            Cause::Form(form) => form.into(),
            Cause::Numbers(refusal) => refusal.into(),
        }
    }
}

// Where a sheet's fault was found: what a fault's line tells of its cause, without which form or refusal it is.
#[derive(Clone, Copy, PartialEq, Eq, Debug)]
pub enum Layer {
    // The sheet's form.
    Sheet,
    // The numbers of a line.
    Job,
}

// Where a fault of the cause is found.
impl From<Cause> for Layer {
    ghost from_gives = { λ c l. l ≡ layer_of c };

    fn from(cause: Cause) -> Layer {
        match cause {
            Cause::Form(_) => Layer::Sheet,
            Cause::Numbers(_) => Layer::Job,
        }
    }
}

// The letter that stands for the layer.
impl From<Layer> for char {
    ghost from_gives = { λ l c. c ≡ layer_letter l };

    fn from(layer: Layer) -> char {
        match layer {
            Layer::Sheet => 'S',
            Layer::Job => 'J',
        }
    }
}

// What is wrong with a sheet, and the line from 1, or 0 for a sheet that is too long. A struct of its own beside the reader's
// `Fault`, which knows no refusal of a job.
#[derive(Clone, Copy, PartialEq, Eq, Debug)]
pub struct SheetFault {
    pub cause: Cause,
    pub line: u32,
}

// A fault of form.
impl From<Fault> for SheetFault {
    ghost from_gives = { λ f x. x ≡ fault (Form f.form) f.line };

    fn from(fault: Fault) -> SheetFault {
        SheetFault {
            cause: Cause::Form(fault.form),
            line: fault.line,
        }
    }
}

// `ER`, the number of the cause, the line and the letter of the layer.
impl fmt::Display for SheetFault {
    ghost output = { λ f. Some (fault_text f) };

    fn fmt<W: fmt::Write>(&self, f: &mut fmt::Formatter<W>) -> fmt::Result {
        let number = u32::from(self.cause);
        let line = self.line;
        let letter = char::from(Layer::from(self.cause));
        write!(f, "ER {number} {line} {letter}")
    }
}

impl Error for SheetFault {}

// A refusal of the numbers of a line. No `From`, since two values make it.
fn by_numbers(refusal: Refusal, line: u32) -> SheetFault
    ensures value { result ≡ fault (Cause.Numbers refusal) line }
{
    SheetFault {
        cause: Cause::Numbers(refusal),
        line,
    }
}

// Takes the first line.
fn take_start(job: &mut Job, reader: &mut Reader<'_>) -> Result<LayingPermit, SheetFault>
    requires { ((standing reader.old).lines ≡ 0) × ((standing reader.old).closed ≡ false) }
    ensures cases { Starts (standing reader.old) result (standing reader.new) (state_of job.new) }
{
    let Some(Record::Start { points, bound }) = reader.record()? else {
        unreachable!()
    };
    let line = reader.line();
    job.make(points.value() as usize, bound.value())
        .map_err(|refusal| by_numbers(refusal, line))
}

// Takes the numbers of a later line.
fn take_line(job: &mut Job, permit: &LayingPermit, line: Record<'_>) -> Result<(), Refusal>
    requires { kind_of line ≢ Kind.Start }
    ensures cases { TakesLine (state_of job.old) (kind_of line.entry) (numbers line.entry) result (state_of job.new) }
{
    match line {
        Record::Start { .. } => unreachable!(),
        Record::Leg { from, to, cost } => {
            job.lay(
                permit,
                from.value() as usize,
                to.value() as usize,
                cost.value(),
            )?;
        }
        Record::End { .. } => {}
    }
    Ok(())
}

// Takes every line.
fn take_lines(job: &mut Job, sheet: &[u8]) -> Result<LayingPermit, SheetFault>
    ensures cases { Took sheet.now result (state_of job.new) }
    ensures bound { (h : Hall) → Obeys sheet.now h → Exactly h result (state_of job.new) }
    ensures refused { (f : SheetFault) → Due sheet.now f → Refuses f result }
    ensures keeps { (cs : List Call) (m : Meaning) (j : Rule) → Run cs (state_of job.old) m j → Continues cs m j result (state_of job.new) }
{
    let mut reader = Reader::new(sheet)?;
    let permit = take_start(job, &mut reader)?;
    while let Some(next) = reader.record()? {
        let line = reader.line();
        take_line(job, &permit, next).map_err(|refusal| by_numbers(refusal, line))?;
    }
    Ok(permit)
}

// Makes the hall that the sheet describes, or leaves a blank job. Time by the bytes. Refused at the first line that is
// at fault, by its form or else by its numbers; the sheet of a valid hall is never refused. No other hall and no other
// fault is due.
pub fn take_sheet(job: &mut Job, sheet: &[u8]) -> Result<LayingPermit, SheetFault>
    ensures cases { Takes sheet.now result (state_of job.new) }
    ensures bound { (h : Hall) → Obeys sheet.now h → Exactly h result (state_of job.new) }
    ensures refused { (f : SheetFault) → Due sheet.now f → Refuses f result }
    ensures keeps { (cs : List Call) (m : Meaning) (j : Rule) → Run cs (state_of job.old) m j → Continues cs m j result (state_of job.new) }
    ensures law { OneAnswer sheet.now }
{
    let taken = take_lines(job, sheet);
    if taken.is_err() {
        job.blank();
    }
    taken
}
