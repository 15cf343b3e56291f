// The vocabulary of docs/RULES.md: the kinds of refusal, a refusal with its place, the three countings.
#![tactic(auto)]

ghost use Rattle.std.specs.Prelude.{◌≡◌, ◌++◌, Some, codes};
ghost use Rattle.std.specs.Fmt.{decimal};
ghost use Rattle.faults.specs.Values.{number, Numbered, refusal_text};

use std::error::Error;
use std::fmt;

// The bytes of the longest text.
pub const LONGEST_TEXT: usize = 60000;

// The bytes of a short text, for which the judge keeps a short tape and a short index of rules.
pub const SHORT_TEXT: usize = 2000;

// The largest atom.
pub const LAST_ATOM: u32 = 4096;

// The largest term number.
pub const LAST_TERM: u32 = 1023;

// The largest element number.
pub const LAST_ELEMENT: u32 = 1023;

// The largest count in a statement, and the longest string.
pub const MOST_COUNT: u32 = 4096;

// The largest numeric term.
pub const LARGEST_NUMBER: u32 = 1000000;

// The largest lower bound of a weight body.
pub const LARGEST_BOUND: u32 = 1000000000;

// The largest weight.
pub const LARGEST_WEIGHT: u32 = 100000;

// The bytes of the timetable room.
pub const TABLE_ROOM: usize = 24592;

// The places of the cycle room.
pub const CYCLE_ROOM: usize = 1024;

// The places of a table by atoms, 0 and the largest with them.
pub const ATOM_PLACES: usize = 4097;

// The places of a table by terms.
pub const TERM_PLACES: usize = 1024;

// The places of a table by elements.
pub const ELEMENT_PLACES: usize = 1024;

// One case a number of the table of verdicts: 1 to 5, 61 to 64 and 7 to 11, then 20 and 21 of the timetable's reader.
#[derive(Clone, Copy, Debug, PartialEq, Eq)]
pub enum Kind {
    Room = 1,
    Long = 2,
    Grammar = 3,
    Carried = 4,
    Bounds = 5,
    Twice = 61,
    Unknown = 62,
    Second = 63,
    NoDifference = 64,
    Candidate = 7,
    Broken = 8,
    Unfounded = 9,
    Cycle = 10,
    Late = 11,
    NotTable = 20,
    NotNamed = 21,
}

impl Kind {
    // The number of the kind.
    pub fn number(self) -> u32
        ensures { result ≡ number self }
    {
        self as u32
    }

    // The refusal of this kind at a place.
    pub fn at(self, place: usize) -> Refusal
        ensures { result ≡ record { kind = self; place = place } }
    {
        Refusal { kind: self, place }
    }
}

// A number that is of no kind.
#[derive(Clone, Copy, Debug, PartialEq, Eq)]
pub struct NoKind(pub u32);

impl TryFrom<u32> for Kind {
    type Error = NoKind;

    ghost try_from_gives = { Numbered };

    // The kind of a number.
    fn try_from(number: u32) -> Result<Kind, NoKind> {
        match number {
            1 => Ok(Kind::Room),
            2 => Ok(Kind::Long),
            3 => Ok(Kind::Grammar),
            4 => Ok(Kind::Carried),
            5 => Ok(Kind::Bounds),
            61 => Ok(Kind::Twice),
            62 => Ok(Kind::Unknown),
            63 => Ok(Kind::Second),
            64 => Ok(Kind::NoDifference),
            7 => Ok(Kind::Candidate),
            8 => Ok(Kind::Broken),
            9 => Ok(Kind::Unfounded),
            10 => Ok(Kind::Cycle),
            11 => Ok(Kind::Late),
            20 => Ok(Kind::NotTable),
            21 => Ok(Kind::NotNamed),
            _ => Err(NoKind(number)),
        }
    }
}

impl fmt::Display for NoKind {
    ghost output = { λ e. Some (codes "no refusal has number " ++ decimal e.0) };

    // Writes that no refusal has the number.
    fn fmt<W: fmt::Write>(&self, f: &mut fmt::Formatter<W>) -> fmt::Result {
        write!(f, "no refusal has number {}", self.0)
    }
}

impl Error for NoKind {}

// Why something is refused, and where.
#[derive(Clone, Copy, Debug, PartialEq, Eq)]
pub struct Refusal {
    pub kind: Kind,
    pub place: usize,
}

impl fmt::Display for Refusal {
    ghost output = { λ r. Some (refusal_text r) };

    // Writes `refused`, the number and the place, a space between.
    fn fmt<W: fmt::Write>(&self, f: &mut fmt::Formatter<W>) -> fmt::Result {
        write!(f, "refused {} {}", self.kind.number(), self.place)
    }
}

impl Error for Refusal {}

// The number of an atom.
#[derive(Clone, Copy, Debug, PartialEq, Eq, PartialOrd, Ord)]
pub struct AtomNo(pub u32);

// The number of a term.
#[derive(Clone, Copy, Debug, PartialEq, Eq, PartialOrd, Ord)]
pub struct TermNo(pub u32);

// The number of an element.
#[derive(Clone, Copy, Debug, PartialEq, Eq, PartialOrd, Ord)]
pub struct ElementNo(pub u32);
