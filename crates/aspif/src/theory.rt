// Theory statements: the rest of a line whose type has been read, onto the tape.
#![tactic(auto, using(crate::proofs::Far::far, crate::proofs::Coding::integer_forth), unfolding(crate::specs::Grammar::numeric_line, crate::specs::Grammar::string_line, crate::specs::Grammar::compound_line, crate::specs::Grammar::element_line, crate::specs::Grammar::front, crate::specs::Grammar::theory_line, crate::specs::Grammar::guarded_line, crate::specs::Grammar::theory_of, crate::specs::Grammar::theory_part, fields::specs::Fields::string, fields::specs::inner::Tape::on_tape))]

ghost use Rattle.std.specs.Prelude.{◌≡◌, ◌≤◌, length};
ghost use Rattle.fields.specs.inner.Tape.{on_tape};
ghost use Rattle.fields.specs.inner.Values.{as_wrote};
ghost use Rattle.aspif.specs.Grammar.{numeric_line, string_line, compound_line, element_line, front, theory_line, guarded_line, theory_of, theory_part};
ghost use Rattle.aspif.specs.inner.Words.{words_of, front_words};

use crate::kinds::{ATOM, COMPOUND, ELEMENT, GUARDED, NUMBER, STRING};
use crate::rules::literals;
use crate::tape::{begin, put};
use faults::{Kind, LARGEST_NUMBER, LAST_TERM, MOST_COUNT, Refusal};
use fields::{Item, Progress, SPACE};

// `u w`: term u is the integer w.
fn numeric_line(at: Progress, s: &[u8], tape: &mut [u32]) -> Result<Progress, Refusal>
    requires { length s.now ≤ length tape.old }
    ensures { as_wrote result tape.new ≡ on_tape words_of tape.old at.out (numeric_line s.now at.cursor.at) }
{
    let (u, d) = at.cursor.next_term(s)?;
    let (w, cursor) = d.next_integer(s, LARGEST_NUMBER, LARGEST_NUMBER)?;
    let o1 = begin(tape, at.out, NUMBER, u.0);
    let out = put(tape, o1, w);
    Ok(Progress { cursor, out })
}

// `u n s`: term u is the string s.
fn string_line(at: Progress, s: &[u8], tape: &mut [u32]) -> Result<Progress, Refusal>
    requires { length s.now ≤ length tape.old }
    ensures { as_wrote result tape.new ≡ on_tape words_of tape.old at.out (string_line s.now at.cursor.at) }
{
    let (u, d) = at.cursor.next_term(s)?;
    let (n, cursor) = d.natural_then(s, MOST_COUNT, Kind::Bounds, SPACE)?;
    let out = begin(tape, at.out, STRING, u.0);
    Progress { cursor, out }.listed(s, Item::Char, n, tape)
}

// `u t n u1..un`: term u is a compound.
fn compound_line(at: Progress, s: &[u8], tape: &mut [u32]) -> Result<Progress, Refusal>
    requires { length s.now ≤ length tape.old }
    ensures { as_wrote result tape.new ≡ on_tape words_of tape.old at.out (compound_line s.now at.cursor.at) }
{
    let (u, d) = at.cursor.next_term(s)?;
    let (w, cursor) = d.next_integer(s, 3, LAST_TERM)?;
    let o1 = begin(tape, at.out, COMPOUND, u.0);
    let out = put(tape, o1, w);
    Progress { cursor, out }.counted(s, Item::Term, MOST_COUNT, Kind::Bounds, tape)
}

// `v n u1..un m l1..lm`: element v with terms and condition literals.
fn element_line(at: Progress, s: &[u8], tape: &mut [u32]) -> Result<Progress, Refusal>
    requires { length s.now ≤ length tape.old }
    ensures { as_wrote result tape.new ≡ on_tape words_of tape.old at.out (element_line s.now at.cursor.at) }
{
    let (v, cursor) = at.cursor.next_element(s)?;
    let out = begin(tape, at.out, ELEMENT, v.0);
    let d = Progress { cursor, out }.counted(s, Item::Term, MOST_COUNT, Kind::Bounds, tape)?;
    literals(d, s, tape)
}

// `a p n v1..vn` of a theory atom, behind the kind of its line.
fn front(at: Progress, s: &[u8], kind: u32, tape: &mut [u32]) -> Result<Progress, Refusal>
    requires { length s.now ≤ length tape.old }
    ensures { as_wrote result tape.new ≡ on_tape (front_words kind) tape.old at.out (front s.now at.cursor.at) }
{
    let (a, d) = at.cursor.next_atom(s, Kind::Carried)?;
    let (p, cursor) = d.next_term(s)?;
    let o1 = begin(tape, at.out, kind, a.0);
    let out = put(tape, o1, p.0);
    Progress { cursor, out }.counted(s, Item::Element, MOST_COUNT, Kind::Bounds, tape)
}

// `a p n v1..vn`: a theory atom.
fn theory_line(at: Progress, s: &[u8], tape: &mut [u32]) -> Result<Progress, Refusal>
    requires { length s.now ≤ length tape.old }
    ensures { as_wrote result tape.new ≡ on_tape words_of tape.old at.out (theory_line s.now at.cursor.at) }
{
    front(at, s, ATOM, tape)
}

// `a p n v1..vn g u`: a theory atom with an operator and a bound.
fn guarded_line(at: Progress, s: &[u8], tape: &mut [u32]) -> Result<Progress, Refusal>
    requires { length s.now ≤ length tape.old }
    ensures { as_wrote result tape.new ≡ on_tape words_of tape.old at.out (guarded_line s.now at.cursor.at) }
{
    let d = front(at, s, GUARDED, tape)?;
    let (g, e) = d.cursor.next_term(s)?;
    let (u, cursor) = e.next_term(s)?;
    let o1 = put(tape, d.out, g.0);
    let out = put(tape, o1, u.0);
    Ok(Progress { cursor, out })
}

// A theory statement of the type k, which stands at the place.
fn theory_of(
    at: Progress,
    s: &[u8],
    k: u32,
    place: usize,
    tape: &mut [u32],
) -> Result<Progress, Refusal>
    requires { length s.now ≤ length tape.old }
    ensures { as_wrote result tape.new ≡ on_tape words_of tape.old at.out (theory_of k place s.now at.cursor.at) }
{
    match k {
        0 => numeric_line(at, s, tape),
        1 => string_line(at, s, tape),
        2 => compound_line(at, s, tape),
        4 => element_line(at, s, tape),
        5 => theory_line(at, s, tape),
        6 => guarded_line(at, s, tape),
        _ => Err(Kind::Grammar.at(place)),
    }
}

// A theory statement: its type, and the rest of its line.
pub fn theory_part(at: Progress, s: &[u8], tape: &mut [u32]) -> Result<Progress, Refusal>
    requires { length s.now ≤ length tape.old }
    ensures { as_wrote result tape.new ≡ on_tape words_of tape.old at.out (theory_part s.now at.cursor.at) }
{
    let (k, cursor) = at.cursor.next_natural(s, 6, Kind::Grammar)?;
    let d = Progress {
        cursor,
        out: at.out,
    };
    theory_of(d, s, k, at.cursor.at + 1, tape)
}
