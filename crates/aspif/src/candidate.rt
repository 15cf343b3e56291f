// The candidate: from bytes into a bitmap, or 7.
#![tactic(auto, using(crate::proofs::Candidates::marking), unfolding(crate::specs::Candidate::atom_above, crate::specs::Candidate::ending, crate::specs::Candidate::candidate_line, crate::specs::Candidate::candidate))]

ghost use Rattle.std.specs.Prelude.{◌≡◌};
ghost use Rattle.fields.specs.inner.Values.{as_atom, as_passed};
ghost use Rattle.aspif.specs.Grammar.{answer};
ghost use Rattle.faults.specs.Limits.{last_atom};
ghost use Rattle.aspif.specs.Candidate.{atom_above, ending, ascending, candidate};
ghost use Rattle.aspif.specs.inner.Bitmap.{Blank, EndsAt};
ghost use Rattle.aspif.specs.inner.Once.{ends_once};
ghost use Rattle.aspif.specs.inner.Values.{as_marked, MarkedTo};

use faults::{ATOM_PLACES, AtomNo, Kind, LAST_ATOM, Refusal};
use fields::{Cursor, Field, SPACE};

// The atoms of a candidate: their marks, and the last of them, 0 where there is none.
// Kept: a mark is the byte 1; `marks` and `is_marked` of the specs, and the promises of `candidate`, `count_marked` and `write`, speak of numbers.
#[derive(Clone, Copy)]
pub struct Atoms<'a> {
    pub marks: &'a [u8; ATOM_PLACES],
    pub last: AtomNo,
    pub ghost ends: { EndsAt last.0 marks.now } by { ends_once last.0 marks.now },
}

// A refusal as one by 7, at the same place.
fn seven(r: Refusal) -> Refusal
    ensures { result ≡ record { kind = Kind.Candidate; place = r.place } }
{
    Kind::Candidate.at(r.place)
}

// An atom to 4,096 that is above `low`.
fn atom_above(c: Cursor, s: &[u8], low: AtomNo) -> Field<AtomNo>
    ensures { as_atom result ≡ atom_above low.0 s.now c.at }
{
    let (v, n) = c.natural(s, LAST_ATOM, Kind::Candidate).map_err(seven)?;
    if v <= low.0 {
        return Err(Kind::Candidate.at(c.at));
    }
    Ok((AtomNo(v), n))
}

// A line end of either kind, and nothing after it.
fn ending(c: Cursor, s: &[u8]) -> Result<Cursor, Refusal>
    ensures { as_passed result ≡ ending s.now c.at }
{
    let (_, d) = c.line_end(s).map_err(seven)?;
    d.text_end(s).map_err(seven)
}

// Marks the atoms from the cursor on.
fn ascending(c: Cursor, s: &[u8], x: &mut [u8; ATOM_PLACES]) -> Result<AtomNo, Refusal>
    requires { Blank x.old }
    ensures x_after { as_marked result x.new ≡ answer (ascending last_atom 0 s.now c.at) }
    ensures marked_to { MarkedTo result x.new }
{
    let mut d = c;
    let mut low = AtomNo(0);
    for _ in 0..LAST_ATOM {
        // Above the largest atom there is none, so what follows it is not read.
        if low.0 == LAST_ATOM {
            break;
        }
        let (v, e) = atom_above(d, s, low)?;
        x[v.0 as usize] = 1;
        let Ok(next) = e.byte(s, SPACE) else {
            ending(e, s)?;
            return Ok(v);
        };
        d = next;
        low = v;
    }
    Err(Kind::Candidate.at(d.at))
}

// The atoms of the candidate, marked in a blank bitmap, and the last of them, 0 where there is none; or 7.
// Kept: 0 and not an option; no atom is 0, and what goes up to the last atom goes up to 0 as to any other.
// Kept: a clause says that the bitmap is blank, here, in `ascending` and in `before_times`; the caller lends it, and the first mark ends what a type would say.
pub fn candidate(s: &[u8], x: &mut [u8; ATOM_PLACES]) -> Result<AtomNo, Refusal>
    requires { Blank x.old }
    ensures x_after { as_marked result x.new ≡ candidate s.now }
    ensures marked_to { MarkedTo result x.new }
{
    let c = Cursor::start();
    if c.line_end(s).is_err() {
        return ascending(c, s, x);
    }
    ending(c, s)?;
    Ok(AtomNo(0))
}
