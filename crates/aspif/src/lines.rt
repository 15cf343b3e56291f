// The lines of a text.
#![tactic(auto, using(crate::proofs::Far::far, crate::proofs::Turns::reach_start), unfolding(crate::specs::Grammar::first_line, crate::specs::Grammar::no_tag, crate::specs::Grammar::last_line, crate::specs::Grammar::statement_of, fields::specs::Fields::all_positive, fields::specs::inner::Tape::on_tape))]

ghost use Rattle.std.specs.Prelude.{◌≡◌, ◌≤◌, ◌<◌, length};
ghost use Rattle.faults.specs.Answer.{mapped};
ghost use Rattle.faults.specs.Values.{as_answer};
ghost use Rattle.fields.specs.inner.Bounds.{longest_read};
ghost use Rattle.fields.specs.inner.Tape.{on_tape};
ghost use Rattle.fields.specs.inner.Values.{as_passed, as_wrote};
ghost use Rattle.aspif.specs.Grammar.{answer, first_line, last_line, statement_of, lines};
ghost use Rattle.aspif.specs.inner.Words.{words_of, lines_of};
ghost use Rattle.aspif.specs.inner.Values.{as_header, as_tape, taped, taped_if};

use crate::kinds::{COMMENT, OUTPUT, RULE, THEORY};
use crate::rules::{comment_line, output_line, rule_line};
use crate::tape::head_line;
use crate::theory::theory_part;
use crate::words::SAYS;
use faults::{Kind, Refusal};
use fields::{Cursor, Field, LineEnd, Progress, SPACE};

// What the first line says: how the lines end.
// Kept: the believed definitions (`first_line`, `lines`, `TextMet`) name it, and a tag of the first line is to stand beside `ends`.
#[derive(Clone, Copy, Debug, PartialEq, Eq)]
pub struct Header {
    pub ends: LineEnd,
}

// The first line, `asp 1 0 0` without a tag, and how it ends.
pub fn first_line(c: Cursor, s: &[u8]) -> Field<Header>
    ensures { as_header result ≡ first_line s.now c.at }
{
    let d = c.bytes(s, b"asp 1 0 0")?;
    if d.look(s) == SPACE {
        return Err(Kind::Carried.at(d.at));
    }
    let (ends, e) = d.line_end(s)?;
    Ok((Header { ends }, e))
}

// The end of the last line, and nothing after it.
fn last_line(c: Cursor, s: &[u8], ends: LineEnd) -> Result<Cursor, Refusal>
    ensures { as_passed result ≡ last_line ends s.now c.at }
{
    c.line_end_of(s, ends)?.text_end(s)
}

// A statement of the type k, onto the tape.
// Kept: types of statements, and kinds of heads and bodies (rules.rt, theory.rt), are the numbers of the text, as the definitions `statement_of`, `theory_of`, `heads`, `body` take them.
fn statement_of(
    at: Progress,
    s: &[u8],
    ends: LineEnd,
    k: u32,
    place: usize,
    tape: &mut [u32],
) -> Result<Progress, Refusal>
    requires { (length s.now ≤ length tape.old) × (length s.now ≤ longest_read) × (k ≡ 10 → at.out < at.cursor.at) }
    ensures { as_wrote result tape.new ≡ on_tape words_of tape.old at.out (statement_of ends k place s.now at.cursor.at) }
{
    match k {
        RULE => rule_line(at, s, tape),
        OUTPUT => output_line(at, s, tape),
        THEORY => theory_part(at, s, tape),
        COMMENT => comment_line(at, s, ends, tape),
        _ => Err(Kind::Carried.at(place)),
    }
}

// At most n lines behind the first, of which the line `0` is the last, on the tape from its start on; and how many they are.
// Kept: cursor and place are two locals; as one `Progress` it was tried, and the loop's invariant could not name the fields of a value that is built in the loop.
pub fn lines(
    c: Cursor,
    s: &[u8],
    first: Header,
    n: usize,
    tape: &mut [u32],
) -> Result<usize, Refusal>
    requires { (0 < c.at) × (length s.now ≤ length tape.old) × (length s.now ≤ longest_read) }
    ensures tape_after { as_tape result tape.new ≡ taped tape.old (answer (lines first n s.now c.at)) }
    ensures result_after { mapped (lines_of tape.new) (as_answer result) ≡ answer (lines first n s.now c.at) }
    ensures taped_if { taped_if result tape.new }
{
    let mut d = c;
    let mut o: usize = 0;
    for done in 0..n {
        let place = d.at;
        let (k, cursor) = d.natural(s, 10, Kind::Grammar)?;
        if k == 0 {
            last_line(cursor, s, first.ends)?;
            return Ok(done);
        }
        let says = Progress {
            cursor,
            out: o + SAYS,
        };
        let said = statement_of(says, s, first.ends, k, place, tape)?;
        d = said.cursor.line_end_of(s, first.ends)?;
        head_line(tape, o, place, said.out);
        o = said.out;
    }
    Err(Kind::Grammar.at(d.at))
}
