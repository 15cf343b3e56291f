// A cursor on a text, and the fields of a line: each method takes the cursor and gives the field with the next cursor.
#![tactic(auto)]

ghost use Rattle.std.specs.Prelude.{◌≤◌};

use faults::Refusal;

mod digits;
mod ends;
mod number;
mod places;
mod tape;

pub use crate::ends::{ends_of, part_end};
pub use crate::places::field_place;

// The space.
pub const SPACE: u8 = 32;

// Byte 10, which ends a line.
pub const FEED: u8 = 10;

// Byte 13, which before byte 10 may be of the line end.
const RETURN: u8 = 13;

// The minus sign.
const MINUS_SIGN: u8 = 45;

// The digit 0.
const ZERO_DIGIT: u8 = 48;

// What 1 of a weight is in the word of a literal and its weight; the literal's own word is below it.
pub const WEIGHT_UNIT: u32 = 16384;

// A place in the text.
// Kept: the text goes beside the cursor; one that held it would need a second clause in each promise, that the next cursor's text is the same.
#[derive(Clone, Copy, Debug, PartialEq, Eq)]
pub struct Cursor {
    pub at: usize,
}

// How far reading and writing have come: the cursor, and the next place of the tape. No more words were written than bytes read.
// Kept: text and tape go beside, and each contract says that the tape is as long, five that the text is not too long; one that held the tape would have to say at each return, refusals too, that its slice keeps its length, which a lent slice says of itself.
#[derive(Clone, Copy, Debug, PartialEq, Eq)]
pub struct Progress {
    pub cursor: Cursor,
    pub out: usize,
    pub ghost roomy: { out ≤ cursor.at },
}

// How a line ends: in byte 10 alone, or in bytes 13 10.
#[derive(Clone, Copy, Debug, PartialEq, Eq)]
pub enum LineEnd {
    Feed,
    Return,
}

// What reading a field finds: its value and the next cursor, or a refusal.
pub type Field<T> = Result<(T, Cursor), Refusal>;

// What a list holds.
// Kept: the definitions `item`, `items` and `counted` of specs/Fields.antt take this enum.
#[derive(Clone, Copy, Debug, PartialEq, Eq)]
pub enum Item {
    Atom,
    Literal,
    Premise,
    Term,
    Element,
    Char,
}
