// Walking the tape: its words, and where its lines end.
ghost use Rattle.std.specs.Prelude.{◌≡◌, ◌+◌, ◌≤◌, ◌<◌, length};
ghost use Rattle.aspif.specs.inner.Words.{word, after};
ghost use Rattle.aspif.specs.inner.Kept.{Ahead};
ghost use Rattle.aspif.specs.inner.Once.{ahead_once};

use crate::words::{SAYS, SIZE};
use faults::{AtomNo, ElementNo, TermNo};

// Lines on a tape, from its first word on: each has its words within the tape and keeps to its bounds.
#[derive(Clone, Copy)]
pub struct Lines<'a> {
    pub tape: &'a [u32],
    pub count: usize,
    pub ghost ahead: { Ahead tape.now 0 count } by { ahead_once tape.now 0 count },
}

impl<'a> Lines<'a> {
    ghost use Rattle.aspif.specs.inner.Words.{places_from};
    ghost use Rattle.aspif.specs.inner.Values.{places_left};

    // The places of the lines, in order.
    pub fn places(self) -> Places<'a>
        ensures { places_left result ≡ places_from self.entry.tape.now 0 self.entry.count }
    {
        Places {
            tape: self.tape,
            at: 0,
            left: self.count,
        }
    }
}

// The places of the lines on a tape that are left, from one place on.
#[derive(Drop)]
pub struct Places<'a> {
    pub tape: &'a [u32],
    pub at: usize,
    pub left: usize,
    pub ghost ahead: { Ahead tape.now at left } by { ahead_once tape.now at left },
}

impl<'a> Iterator for Places<'a> {
    type Item = usize;

    ghost use Rattle.std.specs.Iterator.{YieldsFirst, item_count};
    ghost use Rattle.aspif.specs.inner.Values.{places_left};

    ghost next_gives = { YieldsFirst places_left };

    ghost remaining = { item_count places_left };

    // The place of the first line that is left, or none.
    fn next(&mut self) -> Option<usize> {
        if self.left == 0 {
            return None;
        }
        let p = self.at;
        self.at = after_line(self.tape, p);
        self.left -= 1;
        Some(p)
    }
}

// The word at p + k, or 0 past the end.
// Kept: tape and place apart, here and above; the tables of terms and elements have places alone, and a type of both would be made anew at each.
#[tactic(auto, using(crate::proofs::Walking::word_out), unfolding(crate::specs::inner::Words::word))]
pub fn word_at(tape: &[u32], p: usize, k: usize) -> u32
    ensures { (result ≡ word tape.now (p + k)) × (result < 4294967296) }
{
    tape.get(p.saturating_add(k)).copied().unwrap_or(0)
}

// Kept: each of the three is one line; one generic function takes a trait with three impls, and names the type at each call.

// The atom at p + k.
pub fn atom_at(tape: &[u32], p: usize, k: usize) -> AtomNo
    ensures { result.0 ≡ word tape.now (p + k) }
{
    AtomNo(word_at(tape, p, k))
}

// The term at p + k.
pub fn term_at(tape: &[u32], p: usize, k: usize) -> TermNo
    ensures { result.0 ≡ word tape.now (p + k) }
{
    TermNo(word_at(tape, p, k))
}

// The element at p + k.
pub fn element_at(tape: &[u32], p: usize, k: usize) -> ElementNo
    ensures { result.0 ≡ word tape.now (p + k) }
{
    ElementNo(word_at(tape, p, k))
}

// The place after the line at p.
pub fn after_at(tape: &[u32], p: usize) -> usize
    requires { p ≤ length tape.now }
    ensures { result ≡ after tape.now p }
{
    p + SAYS + word_at(tape, p, SIZE) as usize
}

// The place after the line at p, whose size is on the tape.
// Kept: beside `after_at`, which looks whether the size is there; by that a walk over many short lines takes a fifth more time.
#[tactic(auto, unfolding(crate::specs::inner::Words::word))]
fn after_line(tape: &[u32], p: usize) -> usize
    requires { p + 1 < length tape.now }
    ensures { result ≡ after tape.now p }
{
    p + SAYS + tape[p + SIZE] as usize
}
