// The reader within a line: byte after byte.

ghost use Rattle.std.specs.Prelude.{◌≡◌};
ghost use Rattle.sheet.specs.Steps.{left, Classed, Sees, Turns, Passes, MarkRead, LeadingFigures, AsWritten, FiguresRead, FieldRead, FieldsRead, CountedBy, TakesLine, place_after};
ghost use Rattle.sheet.specs.Reading.{legs_after, more};
ghost use Rattle.sheet.specs.Records.{kind_of};

use crate::{FIGURE_LIMIT, Fault, Field, FormFault, Kind, Record};

// Where the reader is.
#[derive(Clone, Copy, PartialEq, Eq, Debug)]
pub(crate) enum Place {
    Mark,
    Blank,
    Field,
    LineEnd,
    Close,
}

// What kind of byte comes next.
#[derive(Clone, Copy, PartialEq, Eq, Debug)]
pub(crate) enum Class {
    Figure,
    Blank,
    LineEnd,
    Letter,
    Foreign,
}

// The class of a character.
impl From<char> for Class {
    ghost from_gives = { λ c class. Classed c class };

    fn from(c: char) -> Class {
        match c {
            '0'..='9' => Class::Figure,
            ' ' => Class::Blank,
            '\n' => Class::LineEnd,
            'S' | 'T' | 'L' | 'G' | 'E' | 'N' => Class::Letter,
            _ => Class::Foreign,
        }
    }
}

impl Place {
    // Where the reader is after the next byte, `None` standing for the end of the sheet: at `then` past the byte that is
    // due, and at the close for good.
    // The reader is this match: no other text says what is due where.
    fn turn(self, next: Option<Class>, then: Place) -> Result<Place, FormFault>
        ensures { Turns self next then result }
    {
        match (self, next) {
            (Place::Mark, Some(Class::Letter)) => Ok(then),
            (Place::Mark, _) => Err(FormFault::Mark),
            (Place::Blank, Some(Class::Blank)) => Ok(then),
            (Place::Blank, _) => Err(FormFault::Separator),
            (Place::Field, Some(Class::Figure)) => Ok(then),
            (Place::Field, _) => Err(FormFault::Field),
            (Place::LineEnd, Some(Class::LineEnd)) => Ok(then),
            (Place::LineEnd, _) => Err(FormFault::Separator),
            (Place::Close, None) => Ok(Place::Close),
            (Place::Close, Some(_)) => Err(FormFault::Trailing),
        }
    }
}

impl Kind {
    // Where the reader is after such a line.
    fn then(self) -> Place
        ensures { result ≡ place_after self }
    {
        match self {
            Kind::Start | Kind::Leg => Place::Mark,
            Kind::End => Place::Close,
        }
    }
}

// How many lines were read, and how many of them were legs.
#[derive(Clone, Copy, PartialEq, Eq, Debug)]
pub(crate) struct Tally {
    pub(crate) lines: u32,
    pub(crate) legs: u32,
}

impl Tally {
    // The tally with one more record.
    pub(crate) fn after(self, line: Record<'_>) -> Tally
        ensures { result ≡ record { lines = more self.lines; legs = legs_after (kind_of line.entry) self.legs } }
    {
        Tally {
            lines: self.lines.wrapping_add(1),
            legs: match line {
                Record::Leg { .. } => self.legs.wrapping_add(1),
                Record::Start { .. } | Record::End { .. } => self.legs,
            },
        }
    }

    // A fault on the next line.
    pub(crate) fn fault(self, form: FormFault) -> Fault
        ensures { result ≡ record { form = form; line = more self.lines } }
    {
        Fault {
            form,
            line: self.lines.wrapping_add(1),
        }
    }
}

// How many figures begin the bytes, counted to one more than a field may have.
fn leading_figures(bytes: &[u8]) -> usize
    ensures { LeadingFigures bytes.now result }
{
    bytes
        .iter()
        .take(FIGURE_LIMIT + 1)
        .take_while(|byte| Class::from(char::from(**byte)) == Class::Figure)
        .count()
}

// Whether figures stand as a number is written: one to five, and only one where the first is 0.
fn is_written(figures: &[u8]) -> bool
    ensures { AsWritten figures.now result }
{
    match figures {
        [] | [b'0', _, ..] => false,
        _ => figures.len() <= FIGURE_LIMIT,
    }
}

// A place in the sheet, and what is due there. A number and no shorter slice, since a field tells where it begins.
#[derive(Clone, Copy, PartialEq, Eq, Debug)]
pub(crate) struct Cursor<'a> {
    pub(crate) sheet: &'a [u8],
    pub(crate) at: usize,
    pub(crate) place: Place,
}

impl<'a> Cursor<'a> {
    // What is left of the sheet.
    fn rest(&self) -> &'a [u8]
        ensures { result.now ≡ left self.now }
    {
        self.sheet.get(self.at..).unwrap_or(&[])
    }

    // The class of the next byte, if there is one.
    fn class(&self) -> Option<Class>
        ensures { Sees self.now.sheet.now self.now.at result }
    {
        self.sheet
            .get(self.at)
            .map(|byte| Class::from(char::from(*byte)))
    }

    // Goes past the byte that is due. Inlined, since the place is known at most calls.
    #[inline]
    pub(crate) fn pass(&mut self, then: Place) -> Result<(), FormFault>
        ensures { Passes self.old then result self.new }
    {
        self.place = self.place.turn(self.class(), then)?;
        if self.at < self.sheet.len() {
            self.at += 1;
        }
        Ok(())
    }

    // Goes past the mark that is due after so many lines.
    fn mark(&mut self, lines: u32) -> Result<Kind, FormFault>
        requires { self.old.place ≡ Place.Mark }
        ensures { MarkRead self.old lines result self.new }
    {
        let rest = self.rest();
        self.pass(Place::Mark)?;
        self.pass(Place::Blank)?;
        match (lines, rest) {
            (0, [b'S', b'T', ..]) => Ok(Kind::Start),
            (1.., [b'L', b'G', ..]) => Ok(Kind::Leg),
            (1.., [b'E', b'N', ..]) => Ok(Kind::End),
            _ => Err(FormFault::Mark),
        }
    }

    // Goes past the figures of a field, to where the reader is `then`: one to five, and only one where the first is 0.
    fn figures(&mut self, then: Place) -> Result<&'a [u8], FormFault>
        requires { self.old.place ≡ Place.Field }
        ensures { FiguresRead self.old then result self.new }
    {
        let rest = self.rest();
        self.pass(then)?;
        let figures = &rest[..leading_figures(rest)];
        if is_written(figures) {
            self.at += figures.len() - 1;
            Ok(figures)
        } else {
            Err(FormFault::Field)
        }
    }

    // Goes past a blank and a field, to where the reader is `then`.
    fn field(&mut self, then: Place) -> Result<Field<'a>, FormFault>
        requires { self.old.place ≡ Place.Blank }
        ensures { FieldRead self.old then result self.new }
    {
        self.pass(Place::Field)?;
        let at = self.at;
        let figures = self.figures(then)?;
        Ok(Field { figures, at })
    }

    // Goes past the fields of a line.
    fn fields(&mut self, kind: Kind) -> Result<Record<'a>, FormFault>
        requires { self.old.place ≡ Place.Blank }
        ensures { FieldsRead kind self.old result self.new }
    {
        match kind {
            Kind::Start => Ok(Record::Start {
                points: self.field(Place::Blank)?,
                bound: self.field(Place::LineEnd)?,
            }),
            Kind::Leg => Ok(Record::Leg {
                from: self.field(Place::Blank)?,
                to: self.field(Place::Blank)?,
                cost: self.field(Place::LineEnd)?,
            }),
            Kind::End => Ok(Record::End {
                count: self.field(Place::LineEnd)?,
            }),
        }
    }

    // Goes past the line that is due after those in a tally.
    pub(crate) fn line(&mut self, tally: Tally) -> Result<Record<'a>, FormFault>
        requires { self.old.place ≡ Place.Mark }
        ensures { TakesLine self.old tally.lines tally.legs result self.new }
    {
        let kind = self.mark(tally.lines)?;
        let record = self.fields(kind)?;
        self.pass(kind.then())?;
        if record.counts(tally.legs) {
            Ok(record)
        } else {
            Err(FormFault::Count)
        }
    }
}

impl Record<'_> {
    // Whether the record has the count that it should: the last line's is the number of legs.
    fn counts(self, legs: u32) -> bool
        ensures { CountedBy self.entry legs result }
    {
        match self {
            Record::Start { .. } | Record::Leg { .. } => true,
            Record::End { count } => count.value() == legs,
        }
    }
}
