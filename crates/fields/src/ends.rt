// Line ends, and what runs up to them.
#![tactic(auto, using(crate::proofs::Naturals::naturals, crate::proofs::LineEnds::line_ends, crate::proofs::Runs::runs))]

ghost use Rattle.std.specs.Prelude.{◌≡◌, ◌+◌, length, drop};
ghost use Rattle.fields.specs.Fields.{return_feed, until, breaks, breaks_at, ends_line, ends_of};

use crate::digits::peek;
use crate::{FEED, LineEnd, RETURN};

// Whether bytes 13 10 stand at `at`.
pub(crate) fn return_feed(s: &[u8], at: usize) -> bool
    ensures { result ≡ return_feed s.now at }
{
    peek(s, at) == RETURN && peek(s, at + 1) == FEED
}

// Whether a line end of either kind stands at `at`.
fn ends_line(s: &[u8], at: usize) -> bool
    ensures { result ≡ ends_line (drop at s.now) }
{
    peek(s, at) == FEED || return_feed(s, at)
}

// Whether the byte `b` stands at `at`, or a line is over there, of a text whose lines end as `ends` says.
// Kept: how lines end goes beside the text, here and in what calls it; the definitions `breaks_at`, `line_end_of` and `rest` take them apart.
pub(crate) fn breaks_at(s: &[u8], at: usize, b: u8, ends: LineEnd) -> bool
    ensures { result ≡ breaks_at b ends (drop at s.now) }
{
    peek(s, at) == b
        || match ends {
            LineEnd::Feed => peek(s, at) == FEED,
            LineEnd::Return => ends_line(s, at),
        }
}

// Where what begins at `at` and goes to before the byte `b` or the end of its line is over; lines end as `ends` says.
pub(crate) fn run_end(s: &[u8], at: usize, b: u8, ends: LineEnd) -> usize
    ensures { result ≡ at + length (until (breaks_at b ends) (drop at s.now)) }
{
    for i in at..s.len() {
        if breaks_at(s, i, b, ends) {
            return i;
        }
    }
    at.max(s.len())
}

// Where the part of a line that begins at `at` is over; lines end as `ends` says.
pub fn part_end(s: &[u8], at: usize, ends: LineEnd) -> usize
    ensures { result ≡ at + length (until (breaks ends) (drop at s.now)) }
{
    run_end(s, at, FEED, ends)
}

// How the lines of a text end: as its first line end does.
pub fn ends_of(s: &[u8]) -> LineEnd
    ensures { result ≡ ends_of s.now }
{
    let first = part_end(s, 0, LineEnd::Return);
    if peek(s, first) == RETURN {
        LineEnd::Return
    } else {
        LineEnd::Feed
    }
}
