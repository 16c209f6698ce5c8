// The reader between two lines.

ghost use Rattle.std.specs.Prelude.{◌≡◌, true, ◌≢◌};
ghost use Rattle.sheet.specs.Readers.{standing, Opens, told, Placed};
ghost use Rattle.sheet.specs.Reading.{Reads, OneOutcome};
ghost use Rattle.sheet.specs.Whole.{Once};

use crate::steps::{Cursor, Place, Tally};
use crate::{Fault, FormFault, Record, SHEET_LIMIT};

// Reads a sheet record after record.
// No `Iterator`: a fault is told again at each later call, so a `for` over the reader need not end.
#[derive(Debug, Drop)]
pub struct Reader<'a> {
    cursor: Cursor<'a>,
    tally: Tally,
}

impl<'a> Reader<'a> {
    // A reader at the first mark, refused where the sheet is too long.
    pub fn new(sheet: &'a [u8]) -> Result<Reader<'a>, Fault>
        ensures cases { Opens sheet.now result }
    {
        if sheet.len() > SHEET_LIMIT {
            return Err(Fault {
                form: FormFault::TooLong,
                line: 0,
            });
        }
        Ok(Reader {
            cursor: Cursor {
                sheet,
                at: 0,
                place: Place::Mark,
            },
            tally: Tally { lines: 0, legs: 0 },
        })
    }

    // The number of lines read, which is the number of the last of them.
    pub fn line(&self) -> u32
        ensures value { result ≡ self.now.tally.lines }
    {
        self.tally.lines
    }

    // Where a reader stands, a call has one outcome. There is nothing to do.
    fn one_outcome(&self)
        ensures { OneOutcome (standing self.now) }
    {}

    // The next record, or `None` past the last line of a sheet that ends there. Reads the bytes of one line. A fault
    // leaves the reader as it was, and so does the end. What is told is the only outcome that is due.
    pub fn record(&mut self) -> Result<Option<Record<'a>>, Fault>
        ensures cases { Reads (standing self.old) (told result) (standing self.new) }
        ensures items { Placed self.old result self.new }
        ensures same { self.new.cursor.sheet.now ≡ self.old.cursor.sheet.now }
        ensures law { OneOutcome (standing self.old) }
    {
        self.one_outcome();
        match self.cursor.place {
            Place::Close => self.close(),
            _ => self.next_line(),
        }
    }

    // The end of the sheet, where the last line was read.
    fn close(&self) -> Result<Option<Record<'a>>, Fault>
        requires { self.now.cursor.place ≡ Place.Close }
        ensures cases { Reads (standing self.now) (told result) (standing self.now) }
    {
        let mut cursor = self.cursor;
        let tally = self.tally;
        cursor.pass(Place::Close).map_err(|form| tally.fault(form))?;
        Ok(None)
    }

    // The line that is due.
    fn next_line(&mut self) -> Result<Option<Record<'a>>, Fault>
        requires { self.old.cursor.place ≢ Place.Close }
        ensures cases { Reads (standing self.old) (told result) (standing self.new) }
        ensures items { Placed self.old result self.new }
        ensures same { self.new.cursor.sheet.now ≡ self.old.cursor.sheet.now }
    {
        let mut cursor = Cursor {
            place: Place::Mark,
            ..self.cursor
        };
        let tally = self.tally;
        let record = cursor.line(tally).map_err(|form| tally.fault(form))?;
        self.cursor = cursor;
        self.tally = tally.after(record);
        Ok(Some(record))
    }
}

// To read on to the close with no fault is to read a whole sheet, its lines in order.
fn law()
    ensures { Once }
{}

// States the law of whole sheets: the call itself does nothing. That it answers `true` was promised, and so stays.
pub fn sheets_read_once() -> bool
    ensures value { result ≡ true }
    ensures bound { Once }
{
    law();
    true
}
