// From the differences that the lines state and a candidate to 10, 11 or the timetable.
ghost use Rattle.std.specs.Prelude.{◌≡◌, List, ℕ};
ghost use Rattle.basics.specs.inner.Bitmaps.{is_marked, marked_from};
ghost use Rattle.faults.specs.Values.{as_answer};
ghost use Rattle.aspif.specs.Statements.{Line};
ghost use Rattle.timetable.specs.inner.Given.{time_at};
ghost use Rattle.judge.specs.Judged.{in_time, table, accepting, Timed};
ghost use Rattle.judge.specs.Values.{rooms};
ghost use Rattle.judge.specs.inner.Stages.{stated, Stating, Candidate, Sized, ready_at, Filled, in_force, Gathered};
ghost use Rattle.judge.specs.inner.Stages.{Writable, Labelled, Settled, as_judged};

use diffs::Difference;
use faults::{Kind, Refusal, TERM_PLACES};
use terms::marks::mark_names;

// The latest time that may be written.
const LARGEST_TIME: u64 = 2147483647;

// Whether an atom is marked in x.
fn holds(x: &[u8], atom: u32) -> bool
    ensures { result ≡ is_marked x.now atom }
{
    x.get(atom as usize) == Some(&1)
}

// How many of the differences have an atom in x: these are moved into the first places.
fn gather(atoms: &mut [u32], found: &mut [Difference], x: &[u8]) -> usize
    requires { Filled atoms.old found.old }
    ensures { Gathered (in_force x.now (stated atoms.old found.old)) result atoms.new found.new }
{
    let mut n = 0;
    for i in 0..atoms.len() {
        let atom = atoms[i];
        if !holds(x, atom) {
            continue;
        }
        atoms[n] = atom;
        found[n] = found[i];
        n += 1;
    }
    n
}

// 11 with the smallest marked name whose time is above the latest, or nothing.
#[tactic(auto, using(crate::proofs::Lateness::late_steps))]
fn late(names: &[u8; TERM_PLACES], times: &[u64; TERM_PLACES]) -> Result<(), Refusal>
    ensures { as_answer result ≡ in_time (marked_from 0 names.now) (time_at times.now) }
{
    for i in 0..TERM_PLACES {
        if names[i] == 1 && LARGEST_TIME < times[i] {
            return Err(Kind::Late.at(i));
        }
    }
    Ok(())
}

// 11, or the timetable of the marked names with their times and of the atoms of x, written into the room.
fn written(
    names: &[u8; TERM_PLACES],
    times: &[u64; TERM_PLACES],
    x: &[u8],
    room: &mut [u8],
) -> Result<usize, Refusal>
    requires { Writable names.now times.now x.now room.old }
    ensures { (cycle : List ℕ) → as_judged result room.new cycle ≡ accepting (rooms room.old cycle) (table (marked_from 0 names.now) (time_at times.now) (marked_from 1 x.now)) }
{
    late(names, times)?;
    Ok(timetable::write(room, names, times, x))
}

// 10 with a negative cycle of the differences; or 11 or the timetable of their earliest times.
fn settled(
    labels: &[u32],
    found: &[Difference],
    names: &[u8; TERM_PLACES],
    x: &[u8],
    room: &mut [u8],
    cycle: &mut [u32],
) -> Result<usize, Refusal>
    requires labelled { Labelled labels.now found.now }
    requires candidate { Candidate x.now × Sized room.old cycle.old }
    ensures { Settled found.now labels.now names.now x.now (rooms room.old cycle.old) (as_judged result room.new cycle.new) }
{
    let mut times = [0u64; TERM_PLACES];
    if let Some(k) = diffs::decide(found, labels, labels, &mut times, cycle) {
        return Err(Kind::Cycle.at(k as usize));
    }
    written(names, &times, x, room)
}

// 10, 11 or the timetable: of the differences, those with an atom in x are in force.
pub fn timed(
    atoms: &mut [u32],
    found: &mut [Difference],
    x: &[u8],
    room: &mut [u8],
    cycle: &mut [u32],
) -> Result<usize, Refusal>
    requires filled { Filled atoms.old found.old × Candidate x.now }
    requires sized { Sized room.old cycle.old }
    ensures { (ls : List Line) → Stating ls atoms.old found.old → Timed (ready_at ls x.now) (rooms room.old cycle.old) (as_judged result room.new cycle.new) }
{
    let mut names = [0u8; TERM_PLACES];
    mark_names(found, &mut names);
    let n = gather(atoms, found, x);
    settled(&atoms[..n], &found[..n], &names, x, room, cycle)
}
