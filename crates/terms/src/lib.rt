// Terms and theory atoms: refusals 61 to 64, or what the difference atoms say.
#![tactic(auto)]

ghost use Rattle.std.specs.Prelude.{◌≡◌, ◌≤◌, length};
ghost use Rattle.faults.specs.Limits.{longest_text};
ghost use Rattle.aspif.specs.inner.Values.{lines_in};
ghost use Rattle.terms.specs.Reasons.{differences};
ghost use Rattle.terms.specs.inner.Values.{as_differences, Roomy, StatedWithin};

use crate::lines::LineAt;
use aspif::walk::Lines;
use diffs::Difference;
use faults::{ATOM_PLACES, ELEMENT_PLACES, Refusal, TERM_PLACES};

mod difference;
mod lines;
pub mod marks;
mod tables;
mod uses;

// The differences that the lines of the text state, in order, in the first places of two slices; or 61 to 64.
// Kept: the atoms in a slice of their own beside their differences; `diffs::decide` takes them as keys and as labels. And a count beside both, which the judge moves in place.
pub fn collect(
    text: &[u8],
    lines: Lines,
    atoms: &mut [u32],
    found: &mut [Difference],
) -> Result<usize, Refusal>
    requires tape_len_bound { length lines.tape.now ≤ longest_text }
    requires roomy { Roomy (length lines.tape.now) atoms.old found.old }
    ensures found_after { as_differences result atoms.new found.new ≡ differences text.now (lines_in lines.entry) }
    ensures stated_within { StatedWithin result atoms.new found.new }
{
    let mut terms = [0u32; TERM_PLACES];
    let mut elements = [0u32; ELEMENT_PLACES];
    let mut seen = [false; ATOM_PLACES];
    let mut m = 0;
    let tape = lines.tape;
    for p in lines.places() {
        let line = LineAt { text, tape, p };
        let stated = line.take(&mut terms, &mut elements, &mut seen)?;
        if let Some((a, d)) = stated {
            atoms[m] = a.0;
            found[m] = d;
            m += 1;
        }
    }
    Ok(m)
}
