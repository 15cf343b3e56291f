// Names and external atoms, as bitmaps.
ghost use Rattle.std.specs.Prelude.{◌≡◌, false, ◌&&◌, ◌||◌, not, ◌+◌, ◌≤◌, set};
ghost use Rattle.basics.specs.Lists.{among};
ghost use Rattle.faults.specs.inner.Places.{atom_places, term_places, far_place};
ghost use Rattle.aspif.specs.Statements.{rule_in};
ghost use Rattle.aspif.specs.inner.Words.{words_from, says_at};
ghost use Rattle.aspif.specs.inner.Kept.{LineOn};
ghost use Rattle.aspif.specs.inner.Values.{lines_in};
ghost use Rattle.terms.specs.Says.{head_in, headed};
ghost use Rattle.terms.specs.inner.Marks.{MarksThose, Remarked, x_numbers, y_numbers};

use aspif::kinds::RULE;
use aspif::walk::{Lines, atom_at, word_at};
use aspif::words::{FIRST_HEAD, HEADS, SAYS};
use diffs::Difference;
use faults::{ATOM_PLACES, TERM_PLACES};

// Writes a mark, 1 or 0, where there is a place for it.
// Kept: a byte and not a truth value, as the promise of `timetable::write` takes marks.
// Kept: a test and an index; once a borrow by `get_mut` is over, a proof knows no element of the slice.
fn mark(bits: &mut [u8], n: u32, v: u8)
    ensures { bits.new ≡ set bits.old n v }
{
    let i = n as usize;
    if i < bits.len() {
        bits[i] = v;
    }
}

// Marks the numbers of a list.
fn mark_all(list: &[u32], bits: &mut [u8])
    ensures { Remarked bits.old bits.new (λ b a. b || among a list.now) }
{
    for n in list {
        mark(bits, *n, 1);
    }
}

// Marks the names of differences, in a bitmap that marks none.
pub fn mark_names(found: &[Difference], names: &mut [u8; TERM_PLACES])
    requires { MarksThose term_places names.old (λ n. false) }
    ensures { MarksThose term_places names.new (λ n. among n (x_numbers found.now) || among n (y_numbers found.now)) }
{
    for d in found {
        mark(names, d.x.0, 1);
        mark(names, d.y.0, 1);
    }
}

// Takes the marks of the n atoms from `from` on away.
fn clear_list(tape: &[u32], from: usize, n: u32, bits: &mut [u8])
    requires { from ≤ far_place }
    ensures { Remarked bits.old bits.new (λ b a. b && not (among a (words_from tape.now from n))) }
{
    for i in 0..n as usize {
        let a = atom_at(tape, from + i, 0);
        mark(bits, a.0, 0);
    }
}

// Takes the marks of the head atoms of the line at p away.
fn clear_line(tape: &[u32], p: usize, bits: &mut [u8])
    requires { LineOn tape.now p }
    ensures { Remarked bits.old bits.new (λ b a. b && not (head_in a (rule_in (says_at tape.now (p + 2))))) }
{
    let kind = word_at(tape, p, SAYS);
    if kind != RULE {
        return;
    }
    let q = p + SAYS;
    let n = word_at(tape, q, HEADS);
    let from = q + FIRST_HEAD;
    clear_list(tape, from, n, bits);
}

// Takes the marks of the atoms that stand in a rule head of the lines away.
fn clear_heads(lines: Lines, bits: &mut [u8])
    ensures { Remarked bits.old bits.new (λ b a. b && not (headed (lines_in lines.entry) a)) }
{
    for p in lines.places() {
        clear_line(lines.tape, p, bits);
    }
}

// Marks the external atoms among the atoms of the differences that the lines state, in a bitmap that marks none.
pub fn externals(lines: Lines, atoms: &[u32], ext: &mut [u8; ATOM_PLACES])
    requires { MarksThose atom_places ext.old (λ a. false) }
    ensures { MarksThose atom_places ext.new (λ a. among a atoms.now && not (headed (lines_in lines.entry) a)) }
{
    mark_all(atoms, ext);
    clear_heads(lines, ext);
}
