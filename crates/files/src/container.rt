// A container: for each case a line `NAME LENGTH`, so many bytes, and a line end.
ghost use Rattle.std.specs.Prelude.{◌≡◌, IfSome};
ghost use Rattle.files.specs.inner.Cases.{case_at, Stands};

use faults::{Kind, LONGEST_TEXT};
use fields::{Cursor, FEED};

// The bytes of the longest case.
const LONGEST_CASE: u32 = LONGEST_TEXT as u32;

// The byte that follows the bytes of a case.
const CASE_END: u8 = FEED;

// Where a case stands: the end of its name, then the start and the end of its bytes.
#[derive(Clone, Copy, Debug, PartialEq, Eq)]
pub struct Case {
    pub name: usize,
    pub start: usize,
    pub end: usize,
}

// The case at a place: none where its line is of another form, its length is more than that of the longest, or no line end follows its bytes.
pub fn case_at(s: &[u8], at: usize) -> Option<Case>
    ensures value { result ≡ case_at s.now at }
    ensures stands { IfSome result (Stands s.now at) }
{
    let name = Cursor { at }.past_field(s);
    let Ok((size, start)) = name.natural_then(s, LONGEST_CASE, Kind::Bounds, FEED) else {
        return None;
    };
    let end = start.ahead(size as usize);
    if end.look(s) != CASE_END {
        return None;
    }
    Some(Case {
        name: name.at,
        start: start.at,
        end: end.at,
    })
}
