// The sheet reader: bytes to records.
//
// A sheet is lines of a two-letter mark and fields, each after one blank: `ST points bound`, then `LG from to cost`
// lines, then `EN count`. It promises the next record or the one fault of form that is due. The reader knows the form of
// a sheet and nothing of what its numbers mean, and only lends out parts of the sheet.
#![tactic(auto)]

ghost use Rattle.std.specs.Prelude.{◌≡◌, ◌≤◌, map, length};
ghost use Rattle.std.specs.Int.Digits.{number_from_digits};
ghost use Rattle.sheet.specs.Numbers.{form_number, figure, spelled};

mod reading;
mod steps;

pub use reading::{Reader, sheets_read_once};

// The longest sheet, in bytes.
pub const SHEET_LIMIT: usize = 32_768;
// The most figures of a field.
pub const FIGURE_LIMIT: usize = 5;

// What is wrong with a sheet's form.
#[derive(Clone, Copy, PartialEq, Eq, Debug)]
pub enum FormFault {
    // More bytes than a sheet may have.
    TooLong = 30,
    // Not the mark that is due, or no mark where one is due.
    Mark = 31,
    // A field with no figure, a leading 0 or a sixth figure.
    Field = 32,
    // No blank or line end where one is due.
    Separator = 33,
    // The last line's count is not the number of legs.
    Count = 34,
    // Bytes after the last line.
    Trailing = 35,
}

// The fault's number, 30 to 35.
impl From<FormFault> for u32 {
    ghost from_gives = { λ f n. n ≡ form_number f };

    fn from(fault: FormFault) -> u32 {
        fault as u32
    }
}

// A fault of form, with its line from 1, or 0 for a sheet that is too long.
#[derive(Clone, Copy, PartialEq, Eq, Debug)]
pub struct Fault {
    pub form: FormFault,
    pub line: u32,
}

// A field: its figures, as the part of the sheet that they are, and where they begin there.
#[derive(Clone, Copy, PartialEq, Eq, Debug)]
pub struct Field<'a> {
    pub figures: &'a [u8],
    pub at: usize,
}

impl Field<'_> {
    // The number that the first five figures spell.
    pub fn value(self) -> u32
        ensures value { result ≡ spelled self.entry.figures.now }
    {
        number(self.figures.get(..FIGURE_LIMIT).unwrap_or(self.figures))
    }
}

// The number that figures spell.
#[tactic(auto, using(crate::proofs::Spelling::number_by_fold))]
fn number(figures: &[u8]) -> u32
    requires { length figures.now ≤ FIGURE_LIMIT }
    ensures { result ≡ number_from_digits 10 (map figure figures.now) }
{
    figures.iter().fold(0, |number: u32, byte| {
        number * 10 + u32::from(byte.wrapping_sub(b'0'))
    })
}

// A line of the sheet, with its fields.
#[derive(Clone, Copy, PartialEq, Eq, Debug)]
pub enum Record<'a> {
    Start {
        points: Field<'a>,
        bound: Field<'a>,
    },
    Leg {
        from: Field<'a>,
        to: Field<'a>,
        cost: Field<'a>,
    },
    End {
        count: Field<'a>,
    },
}

// Which line a mark begins.
#[derive(Clone, Copy, PartialEq, Eq, Debug)]
pub enum Kind {
    Start,
    Leg,
    End,
}
