// What the program prints of a verdict, as bytes: `accepted NAMES ATOMS` and a line `TERM TIME` for each name, or
// `refused NUMBER PLACE` and, after 10, a line with the cycle.
#![tactic(auto)]

ghost use Rattle.std.specs.Prelude.{◌≡◌, ◌+◌, ◌*◌, ◌≤◌, length, drop};
ghost use Rattle.io.specs.Counts.{IsPrefixLen};
ghost use Rattle.faults.specs.Values.{number};
ghost use Rattle.timetable.specs.Table.{header_length, records_at};
ghost use Rattle.judge.specs.Plan.{asked};
ghost use Rattle.judge.specs.Values.{as_verdict, rooms};
ghost use Rattle.report.specs.Report.{decimal, spaced, two, spaced_all, list_line, record_line, record_lines, accepted_lines, refused_lines, printed, Reported};
ghost use Rattle.report.specs.inner.Steps.{Put, RoomAt, Legible, Reportable};

use faults::{CYCLE_ROOM, Kind, Refusal, TABLE_ROOM, TermNo};
use judge::Verdict;
use timetable::{HEADER, word_at};

// The bytes of a record: its name and its time, four bytes each.
const RECORD: usize = 8;

// Writes some bytes at a place, and gives the place after them.
// Kept: the place beside the buffer, as `RoomAt` and `Put` name both; std's writers over slices give no `contents`, so `write!` can't promise the bytes.
fn put(out: &mut [u8], at: usize, part: &[u8]) -> usize
    requires { RoomAt part.now out.old at }
    ensures { Put part.now out.old at out.new result }
{
    let end = at + part.len();
    out[at..end].copy_from_slice(part);
    end
}

// Writes a number at a place, and gives the place after it.
fn put_number(out: &mut [u8], at: usize, n: u64) -> usize
    requires { RoomAt (decimal n) out.old at }
    ensures { Put (decimal n) out.old at out.new result }
{
    let mut digits = [0u8; 20];
    let k = io::decimal(n, &mut digits);
    put(out, at, &digits[..k])
}

// Writes a space and a number at a place, and gives the place after them.
fn put_next(out: &mut [u8], at: usize, n: u64) -> usize
    requires { RoomAt (spaced n) out.old at }
    ensures { Put (spaced n) out.old at out.new result }
{
    let a = put(out, at, b" ");
    put_number(out, a, n)
}

// Writes two numbers at a place, a space before each, and a line end; gives the place after them.
fn put_two(out: &mut [u8], at: usize, n: u64, m: u64) -> usize
    requires { RoomAt (two n m) out.old at }
    ensures { Put (two n m) out.old at out.new result }
{
    let a = put_next(out, at, n);
    let b = put_next(out, a, m);
    put(out, b, b"\n")
}

// Writes the line of a record at a place, and gives the place after it.
fn put_record(out: &mut [u8], at: usize, name: TermNo, time: u32) -> usize
    requires { RoomAt (record_line (record { name = name.0; time = time })) out.old at }
    ensures { Put (record_line (record { name = name.0; time = time })) out.old at out.new result }
{
    let a = put_number(out, at, u64::from(name.0));
    let b = put_next(out, a, u64::from(time));
    put(out, b, b"\n")
}

// Writes a line for each of n records of a timetable at a place, and gives the place after them.
fn put_records(out: &mut [u8], at: usize, table: &[u8], n: usize) -> usize
    requires { (header_length + 8 * n ≤ length table.now) × RoomAt (record_lines (records_at table.now n header_length)) out.old at }
    ensures { Put (record_lines (records_at table.now n header_length)) out.old at out.new result }
{
    let mut end = at;
    for i in 0..n {
        let p = HEADER + RECORD * i;
        let name = word_at(table, p);
        let time = word_at(table, p + 4);
        end = put_record(out, end, TermNo(name), time);
    }
    end
}

// Writes the lines of an acceptance, whose timetable stands at the start of a room; gives their length.
fn put_accepted(out: &mut [u8], room: &[u8]) -> usize
    requires { Legible room.now × RoomAt (accepted_lines room.now) out.old 0 }
    ensures { Put (accepted_lines room.now) out.old 0 out.new result }
{
    let n = word_at(room, 0);
    let m = word_at(room, 4);
    let a = put(out, 0, b"accepted");
    let b = put_two(out, a, u64::from(n), u64::from(m));
    put_records(out, b, room, n as usize)
}

// Writes numbers at a place, a space before each; gives the place after them.
fn put_others(out: &mut [u8], at: usize, others: &[u32]) -> usize
    requires { RoomAt (spaced_all others.now) out.old at }
    ensures { Put (spaced_all others.now) out.old at out.new result }
{
    let mut end = at;
    for v in others {
        end = put_next(out, end, u64::from(*v));
    }
    end
}

// Writes the line of a list at a place, and gives the place after it.
fn put_list(out: &mut [u8], at: usize, list: &[u32]) -> usize
    requires { RoomAt (list_line list.now) out.old at }
    ensures { Put (list_line list.now) out.old at out.new result }
{
    let Some((first, others)) = list.split_first() else {
        return put(out, at, b"\n");
    };
    let a = put_number(out, at, u64::from(*first));
    let b = put_others(out, a, others);
    put(out, b, b"\n")
}

// Writes the lines of a refusal: after 10 with the list at the start of the cycle room; gives their length.
fn put_refused(out: &mut [u8], refusal: Refusal, cycle: &[u32]) -> usize
    requires { RoomAt (refused_lines (number refusal.kind) refusal.place cycle.now) out.old 0 }
    ensures { Put (refused_lines (number refusal.kind) refusal.place cycle.now) out.old 0 out.new result }
{
    let number = refusal.kind.number();
    let place = refusal.place;
    let a = put(out, 0, b"refused");
    let b = put_two(out, a, u64::from(number), place as u64);
    if refusal.kind != Kind::Cycle {
        return b;
    }
    let end = place.min(cycle.len());
    put_list(out, b, &cycle[..end])
}

// Writes what is printed of a verdict with both rooms, and gives its length.
pub fn write(out: &mut [u8], verdict: Verdict, room: &[u8], cycle: &[u32]) -> usize
    requires { Reportable (as_verdict verdict) room.now × RoomAt (printed (as_verdict verdict) (rooms room.now cycle.now)) out.old 0 }
    ensures put { Put (printed (as_verdict verdict) (rooms room.now cycle.now)) out.old 0 out.new result }
    ensures prefix_len { IsPrefixLen result out.new }
{
    match verdict {
        Verdict::Accepted(_) => put_accepted(out, room),
        Verdict::Refused(refusal) => put_refused(out, refusal, cycle),
    }
}

// Judges a text and a candidate in rooms of the size asked, writes what is printed of the result, and gives its length.
pub fn judged(text: &[u8], cand: &[u8], out: &mut [u8]) -> usize
    requires { 65536 ≤ length out.old }
    ensures reported { Reported (asked text.now cand.now) out.old out.new result }
    ensures prefix_len { IsPrefixLen result out.new }
{
    let mut room = [0u8; TABLE_ROOM];
    let mut cycle = [0u32; CYCLE_ROOM];
    let verdict = judge::judge(text, cand, &mut room, &mut cycle);
    write(out, verdict, &room, &cycle)
}
