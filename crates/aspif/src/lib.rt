// The reader: a text becomes statements on a tape, or a refusal with its number and place; a candidate becomes a bitmap.
#![tactic(auto)]

ghost use Rattle.std.specs.Prelude.{◌≡◌, ◌≤◌, length};
ghost use Rattle.faults.specs.Answer.{mapped};
ghost use Rattle.faults.specs.Values.{as_answer};
ghost use Rattle.fields.specs.inner.Bounds.{longest_read};
ghost use Rattle.aspif.specs.Grammar.{statements};
ghost use Rattle.aspif.specs.inner.Words.{lines_of};
ghost use Rattle.aspif.specs.inner.Values.{as_tape, taped, taped_if};

use faults::Refusal;
use fields::Cursor;
use lines::{first_line, lines};

pub mod candidate;
pub mod kinds;
mod lines;
mod rules;
mod tape;
mod theory;
pub mod walk;
pub mod words;

// What the text says, on the tape from its start on, and how many lines that is; or 3, 4 or 5.
#[tactic(auto, using(crate::proofs::Far::first_far), unfolding(crate::specs::Grammar::statements, crate::specs::Grammar::plan, crate::specs::inner::Values::taped))]
pub fn read(s: &[u8], tape: &mut [u32]) -> Result<usize, Refusal>
    requires { (length s.now ≤ length tape.old) × (length s.now ≤ longest_read) }
    ensures tape_after { as_tape result tape.new ≡ taped tape.old (statements s.now) }
    ensures result_after { mapped (lines_of tape.new) (as_answer result) ≡ statements s.now }
    ensures taped_if { taped_if result tape.new }
{
    let (first, c) = first_line(Cursor::start(), s)?;
    lines(c, s, first, s.len(), tape)
}
