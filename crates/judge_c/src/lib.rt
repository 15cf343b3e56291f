// The judge for C and Rust callers: numbers and slices only, each answer packed into one 64-bit number.
#![tactic(auto)]

ghost use Rattle.std.specs.Prelude.{◌≡◌, ◌+◌, ◌*◌, ◌<◌, min, length};
ghost use Rattle.faults.specs.Values.{number};
ghost use Rattle.timetable.specs.Times.{time_of};
ghost use Rattle.judge.specs.Plan.{asked};
ghost use Rattle.judge.specs.Shown.{shown};
ghost use Rattle.judge.specs.Values.{rooms, as_verdict};
ghost use Rattle.judge_c.specs.Packed.{half, largest_half, packed, packed_time, packed_part, Answers};
ghost use Rattle.judge_c.specs.inner.Steps.{Fitting};

use faults::{Kind, Refusal, SHORT_TEXT, TermNo};
use judge::Verdict;

// A half holds the numbers below this.
const HALF: u64 = 4294967296;

// One number above, the other below.
// Kept: numbers in place of verdicts and kinds, the C interface.
fn pack(above: u32, below: u32) -> u64
    ensures { result ≡ above * half + below }
{
    u64::from(above) * HALF + u64::from(below)
}

// A refusal's number above, its place below.
fn pack_refusal(refusal: Refusal) -> u64
    requires { refusal.place < half }
    ensures { result ≡ number refusal.kind * half + refusal.place }
{
    let place = refusal.place as u32;
    pack(refusal.kind.number(), place)
}

// A length as a half: the largest where it is longer.
fn half_of(length: usize) -> u32
    ensures { result ≡ min length largest_half }
{
    u32::try_from(length).unwrap_or(u32::MAX)
}

// The length of the part that is shown for a number and a place.
fn shown_length<'a>(text: &'a [u8], cand: &'a [u8], number: u32, place: u32) -> usize
    ensures { result ≡ length (shown number place text.now cand.now) }
{
    let Ok(kind) = Kind::try_from(number) else {
        return 0;
    };
    judge::show::show(text, cand, kind.at(place as usize)).len()
}

// A verdict: 0 above and the timetable's length below, or the refusal's number above and its place below.
fn pack_verdict(verdict: Verdict) -> u64
    requires { Fitting verdict }
    ensures { result ≡ packed (as_verdict verdict) }
{
    match verdict {
        Verdict::Accepted(n) => pack(0, n as u32),
        Verdict::Refused(refusal) => pack_refusal(refusal),
    }
}

// The verdict, packed, by the frame that any text needs.
#[unsafe(no_mangle)]
pub extern "C" fn plan_judge_long(
    text: &[u8],
    cand: &[u8],
    room: &mut [u8],
    cycle: &mut [u32],
) -> u64
    ensures { Answers (asked text.now cand.now) (rooms room.old cycle.old) (rooms room.new cycle.new) result }
{
    pack_verdict(judge::judge_long(text, cand, room, cycle))
}

// The verdict, packed; by a small frame where the text is short.
#[unsafe(no_mangle)]
pub extern "C" fn plan_judge(text: &[u8], cand: &[u8], room: &mut [u8], cycle: &mut [u32]) -> u64
    ensures { Answers (asked text.now cand.now) (rooms room.old cycle.old) (rooms room.new cycle.new) result }
{
    if text.len() <= SHORT_TEXT {
        return pack_verdict(judge::judge_short(text, cand, room, cycle));
    }
    plan_judge_long(text, cand, room, cycle)
}

// The time of a name in a timetable below, with 0 above; or 20 or 21 above and its place below.
#[unsafe(no_mangle)]
pub extern "C" fn plan_time(table: &[u8], term: u32) -> u64
    ensures { result ≡ packed_time (time_of table.now term) }
{
    match judge::time(table, TermNo(term)) {
        Ok(time) => pack(0, time),
        Err(refusal) => pack_refusal(refusal),
    }
}

// Where the faulty part starts above, its length below, the largest half where it is longer; 0 where nothing is shown.
#[unsafe(no_mangle)]
pub extern "C" fn plan_shown<'a>(text: &'a [u8], cand: &'a [u8], number: u32, place: u32) -> u64
    ensures { result ≡ packed_part place (length (shown number place text.now cand.now)) }
{
    let bytes = shown_length(text, cand, number, place);
    if bytes == 0 {
        return 0;
    }
    pack(place, half_of(bytes))
}
