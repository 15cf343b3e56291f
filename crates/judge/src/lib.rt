// The judge: a plan text and a candidate in, a verdict and a timetable or a cycle out.
#![tactic(auto)]

ghost use Rattle.std.specs.Prelude.{◌≡◌, ◌≤◌, ◌*◌, length};
ghost use Rattle.faults.specs.Limits.{longest_text};
ghost use Rattle.faults.specs.Values.{as_answer};
ghost use Rattle.faults.specs.inner.Places.{short_text};
ghost use Rattle.aspif.specs.inner.Bitmap.{Blank};
ghost use Rattle.terms.specs.inner.Values.{difference_words, Roomy};
ghost use Rattle.timetable.specs.Times.{time_of};
ghost use Rattle.judge.specs.Plan.{asked, lent};
ghost use Rattle.judge.specs.Judged.{Judged};
ghost use Rattle.judge.specs.Values.{rooms, as_verdict, as_result};
ghost use Rattle.judge.specs.inner.Stages.{as_judgement, as_judged, BeforeTimes};

use aspif::candidate::{Atoms, candidate};
use aspif::walk::Lines;
use diffs::Difference;
use faults::{
    ATOM_PLACES, AtomNo, CYCLE_ROOM, Kind, LONGEST_TEXT, Refusal, SHORT_TEXT, TABLE_ROOM, TermNo,
};
use terms::marks::externals;
use timed::timed;

pub mod show;
mod timed;

// The most differences that stand on the tape of a short text: a line that states one takes nine words.
const SHORT_DIFFERENCES: usize = 223;

// The most that stand on the longest tape.
const LONG_DIFFERENCES: usize = 6667;

// The verdict: accepted, with the timetable's length; or refused, with its kind and place.
// Kept: an own enum, a form that was asked for (docs/DECISIONS.md, Forms); `as_verdict`, `as_result` and `judge_unique` speak of it.
#[derive(Clone, Copy, Debug, PartialEq, Eq)]
pub enum Verdict {
    Accepted(usize),
    Refused(Refusal),
}

impl From<Result<usize, Refusal>> for Verdict {
    ghost from_gives = { λ r v. as_verdict v ≡ as_judgement r };

    // The verdict that accepts with a length, or refuses.
    fn from(judged: Result<usize, Refusal>) -> Verdict {
        match judged {
            Ok(length) => Verdict::Accepted(length),
            Err(refusal) => Verdict::Refused(refusal),
        }
    }
}

// 1, where a room is too short, the timetable room first.
#[tactic(auto, unfolding(crate::specs::Plan::lent))]
fn lent(room: &[u8], cycle: &[u32]) -> Result<(), Refusal>
    ensures { as_answer result ≡ lent (rooms room.now cycle.now) }
{
    if room.len() < TABLE_ROOM {
        return Err(Kind::Room.at(TABLE_ROOM));
    }
    if cycle.len() < CYCLE_ROOM {
        return Err(Kind::Room.at(CYCLE_ROOM));
    }
    Ok(())
}

// 3 to 5, 61 to 64 and 7 to 9, of a text that fits the tape; or how many differences stand in the first places of two slices, and the last atom of the stable candidate in x.
fn before_times(
    text: &[u8],
    cand: &[u8],
    tape: &mut [u32],
    atoms: &mut [u32],
    found: &mut [Difference],
    x: &mut [u8; ATOM_PLACES],
) -> Result<(usize, AtomNo), Refusal>
    requires text_in_bounds { (length text.now ≤ length tape.old) × (length tape.old ≤ longest_text) }
    requires roomy { Roomy (length tape.old) atoms.old found.old × Blank x.old }
    ensures { BeforeTimes result (asked text.now cand.now) x.new atoms.new found.new }
{
    let count = aspif::read(text, tape)?;
    let lines = Lines { tape, count };
    let m = terms::collect(text, lines, atoms, found)?;
    let last = candidate(cand, x)?;
    if let Some(p) = stable::first_broken(lines, x) {
        return Err(Kind::Broken.at(p as usize));
    }
    let mut ext = [0u8; ATOM_PLACES];
    externals(lines, &atoms[..m], &mut ext);
    if let Some(a) = stable::smallest_unfounded(lines, &ext, Atoms { marks: x, last }) {
        return Err(Kind::Unfounded.at(a.0 as usize));
    }
    Ok((m, last))
}

// The timetable's length or the refusal, of any text, with a tape and slices of these sizes.
// Kept: text and candidate, and both rooms, beside one another, here, above and below, as the C interface lends them; a type of two `&mut` would have to say of each that it is still the caller's.
fn judged_within<const WORDS: usize, const DIFFERENCES: usize>(
    text: &[u8],
    cand: &[u8],
    room: &mut [u8],
    cycle: &mut [u32],
) -> Result<usize, Refusal>
    requires sizes { (WORDS ≤ longest_text) × (DIFFERENCES ≤ WORDS) × (WORDS ≤ difference_words * DIFFERENCES) }
    requires fitting { length text.now ≤ longest_text → length text.now ≤ WORDS }
    ensures { Judged (asked text.now cand.now) (rooms room.old cycle.old) (as_judged result room.new cycle.new) }
{
    lent(room, cycle)?;
    if LONGEST_TEXT < text.len() {
        return Err(Kind::Long.at(LONGEST_TEXT));
    }
    let mut tape = [0u32; WORDS];
    let mut atoms = [0u32; DIFFERENCES];
    let mut found = [Difference::ZERO; DIFFERENCES];
    let mut x = [0u8; ATOM_PLACES];
    let (m, last) = before_times(text, cand, &mut tape, &mut atoms, &mut found, &mut x)?;
    let top = last.0 as usize + 1;
    timed(&mut atoms[..m], &mut found[..m], &x[..top], room, cycle)
}

// The verdict on a short text: its tape and slices are short too, so it has a small frame.
pub fn judge_short(text: &[u8], cand: &[u8], room: &mut [u8], cycle: &mut [u32]) -> Verdict
    requires { length text.now ≤ short_text }
    ensures { Judged (asked text.now cand.now) (rooms room.old cycle.old) (as_result result room.new cycle.new) }
{
    judged_within::<SHORT_TEXT, SHORT_DIFFERENCES>(text, cand, room, cycle).into()
}

// The verdict on any text, with the longest tape.
pub fn judge_long(text: &[u8], cand: &[u8], room: &mut [u8], cycle: &mut [u32]) -> Verdict
    ensures { Judged (asked text.now cand.now) (rooms room.old cycle.old) (as_result result room.new cycle.new) }
{
    judged_within::<LONGEST_TEXT, LONG_DIFFERENCES>(text, cand, room, cycle).into()
}

// The verdict on a plan text and a candidate; the timetable's bytes in room, or a negative cycle's atoms in cycle.
pub fn judge(text: &[u8], cand: &[u8], room: &mut [u8], cycle: &mut [u32]) -> Verdict
    ensures { Judged (asked text.now cand.now) (rooms room.old cycle.old) (as_result result room.new cycle.new) }
{
    // Two functions, so that the longest tape is not in the frame of a short text.
    if text.len() <= SHORT_TEXT {
        return judge_short(text, cand, room, cycle);
    }
    judge_long(text, cand, room, cycle)
}

// The time of a name in a timetable; or 20 where the slice is none, or 21 where the name is not in it.
pub fn time(table: &[u8], term: TermNo) -> Result<u32, Refusal>
    ensures { as_answer result ≡ time_of table.now term.0 }
{
    timetable::time_of(table, term)
}
