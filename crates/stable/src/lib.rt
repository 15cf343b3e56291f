// Stable candidates: the first broken rule, the least model of the reduct, the smallest unfounded atom.
#![tactic(auto)]

ghost use Rattle.std.specs.Prelude.{◌≡◌, ◌&&◌, ℕ, ◌+◌, ◌*◌, ◌/◌, ◌≤◌, ◌<◌, cond, leb, length, map, take};
ghost use Rattle.std.proofs.Math.Option.{some};
ghost use Rattle.basics.specs.Lists.{among};
ghost use Rattle.basics.specs.inner.Bitmaps.{is_marked};
ghost use Rattle.faults.specs.Limits.{longest_text};
ghost use Rattle.faults.specs.inner.Places.{atom_places};
ghost use Rattle.aspif.specs.Statements.{choice, in_head};
ghost use Rattle.aspif.specs.Grammar.{literal_of, premise_of, plain_head};
ghost use Rattle.aspif.specs.inner.Words.{behind, list_at, body_at};
ghost use Rattle.aspif.specs.inner.Bitmap.{Blank};
ghost use Rattle.aspif.specs.inner.Kept.{Counted, SmallLiterals, SmallPremise, SmallHead};
ghost use Rattle.aspif.specs.inner.Values.{lines_in};
ghost use Rattle.stable.specs.Meaning.{first_broken, broken, FoundedBy};
ghost use Rattle.stable.specs.inner.Values.{as_broken, as_unfounded};
ghost use Rattle.stable.specs.inner.Index.{rule_at, BodyOn, RuleOn, rule_words, Readable, Indexed};
ghost use Rattle.stable.specs.inner.Steps.{literal_holds, all_hold, reached_by, body_holds, fires, MarkedOne, AddedMarks, Round, Both, LeastBy, Sought};

use aspif::candidate::Atoms;
use aspif::kinds::{NORMAL, RULE};
use aspif::walk::{Lines, word_at};
use aspif::words::{HEAD_KIND, HEADS, LOWER_BOUND, PREMISES, SAYS};
use faults::{ATOM_PLACES, AtomNo, SHORT_TEXT};
use fields::WEIGHT_UNIT;

// The index of the rules on the tape of a short text: a rule takes eight words or more.
const SHORT_INDEX: usize = 250;

// The index of the rules on the longest tape.
const LONG_INDEX: usize = 7500;

// The words of the list whose count stands at `at`.
fn list_at(tape: &[u32], at: usize) -> &[u32]
    requires at_in_bounds { behind tape.now at ≤ length tape.now }
    ensures { result.now ≡ list_at tape.now at }
{
    let n = tape[at] as usize;
    let first = at + 1;
    &tape[first..first + n]
}

// Truth in the reduct: a negated atom is looked up in x, another in s.
#[derive(Clone, Copy)]
struct Truth<'a> {
    x: &'a [u8; ATOM_PLACES],
    s: &'a [u8; ATOM_PLACES],
}

impl Truth<'_> {
    // Whether the literal of a word is true.
    fn literal_true(self, w: u32) -> bool
        requires w_bound { w / 2 < atom_places }
        ensures { result ≡ literal_holds (is_marked self.entry.x.now) (is_marked self.entry.s.now) (literal_of w) }
    {
        let a = (w / 2) as usize;
        if w % 2 == 0 {
            return self.s[a] == 1;
        }
        self.x[a] != 1
    }

    // Whether each of the literals is true.
    fn all_true(self, literals: &[u32]) -> bool
        requires small { SmallLiterals (map literal_of literals.now) }
        ensures { result ≡ all_hold (is_marked self.entry.x.now) (is_marked self.entry.s.now) (map literal_of literals.now) }
    {
        for w in literals {
            if !self.literal_true(*w) {
                return false;
            }
        }
        true
    }

    // Whether the weights of the true premises reach the bound.
    fn bound_reached(self, premises: &[u32], bound: u32) -> bool
        requires small { Counted SmallPremise (map premise_of premises.now) }
        ensures { result ≡ leb bound (reached_by (is_marked self.entry.x.now) (is_marked self.entry.s.now) (map premise_of premises.now)) }
    {
        if bound == 0 {
            return true;
        }
        let mut due = bound;
        for w in premises {
            if self.literal_true(*w % WEIGHT_UNIT) {
                let weight = *w / WEIGHT_UNIT;
                if due <= weight {
                    return true;
                }
                due -= weight;
            }
        }
        false
    }

    // Whether the body at `at` is true.
    fn body_true(self, tape: &[u32], at: usize) -> bool
        requires body_on { BodyOn tape.now at }
        ensures { result ≡ body_holds (is_marked self.entry.x.now) (is_marked self.entry.s.now) (body_at tape.now at) }
    {
        let list = list_at(tape, at + PREMISES);
        if tape[at] == NORMAL {
            return self.all_true(list);
        }
        let bound = word_at(tape, at, LOWER_BOUND);
        self.bound_reached(list, bound)
    }
}

// Whether the rule at q is broken in x.
fn is_broken(tape: &[u32], q: usize, x: &[u8; ATOM_PLACES]) -> bool
    requires rule_on { RuleOn tape.now q }
    ensures { result ≡ broken (is_marked x.now) (some (rule_at tape.now q)) }
{
    if tape[q + HEAD_KIND] != 0 {
        return false;
    }
    let h = q + HEADS;
    let heads = list_at(tape, h);
    if let Some(a) = heads.first() {
        if x[*a as usize] == 1 {
            return false;
        }
    }
    let truth = Truth { x, s: x };
    truth.body_true(tape, h + 1 + heads.len())
}

// The first broken rule among the lines, by the place of its line.
pub fn first_broken(lines: Lines, x: &[u8; ATOM_PLACES]) -> Option<u32>
    ensures { as_broken result ≡ first_broken (is_marked x.now) (lines_in lines.entry) }
{
    let tape = lines.tape;
    for p in lines.places() {
        if word_at(tape, p, SAYS) == RULE && is_broken(tape, p + SAYS, x) {
            return Some(tape[p]);
        }
    }
    None
}

// Whether a was not marked before; it is marked now.
fn mark(found: &mut [u8; ATOM_PLACES], a: AtomNo) -> bool
    requires { a.0 < length found.old }
    ensures { MarkedOne found.old found.new a.0 (cond result 1 0) }
{
    let v = a.0 as usize;
    let new = found[v] != 1;
    found[v] = 1;
    new
}

// How many atoms of a plain head are newly marked.
fn add_single(heads: &[u32], found: &mut [u8; ATOM_PLACES]) -> usize
    requires small_head { SmallHead (plain_head heads.now) }
    ensures { AddedMarks (λ (a : ℕ). in_head a (plain_head heads.now)) found.old found.new result }
{
    match heads.first() {
        None => 0,
        Some(w) => usize::from(mark(found, AtomNo(*w))),
    }
}

// How many atoms in x of a choice head are newly marked.
fn add_chosen(heads: &[u32], x: &[u8; ATOM_PLACES], found: &mut [u8; ATOM_PLACES]) -> usize
    requires small_head { SmallHead (choice heads.now) }
    ensures { AddedMarks (λ (a : ℕ). among a heads.now && is_marked x.now a) found.old found.new result }
{
    let mut added = 0;
    for w in heads {
        if x[*w as usize] == 1 {
            added += usize::from(mark(found, AtomNo(*w)));
        }
    }
    added
}

// How many atoms are new by the rule at q: its heads, where its body is true by x and the atoms found.
// Kept: the atoms found beside x, here and in what is called; they are lent to change, so they can't stand in `Truth`.
fn fire(tape: &[u32], q: usize, x: &[u8; ATOM_PLACES], found: &mut [u8; ATOM_PLACES]) -> usize
    requires rule_on { RuleOn tape.now q }
    ensures { AddedMarks (fires (is_marked x.now) (is_marked found.old) (rule_at tape.now q)) found.old found.new result }
{
    let h = q + HEADS;
    let heads = list_at(tape, h);
    let truth = Truth { x, s: found };
    if !truth.body_true(tape, h + 1 + heads.len()) {
        return 0;
    }
    if tape[q + HEAD_KIND] != 0 {
        return add_chosen(heads, x, found);
    }
    add_single(heads, found)
}

// How many atoms are new after every rule of the index has been visited once.
fn round(tape: &[u32], index: &[u32], x: &[u8; ATOM_PLACES], found: &mut [u8; ATOM_PLACES]) -> usize
    requires readable { Readable tape.now index.now }
    ensures { Round (is_marked x.now) tape.now index.now found.old found.new result }
{
    let mut added = 0;
    for q in index {
        added += fire(tape, *q as usize, x, found);
    }
    added
}

// The external atoms in x, as the first atoms found.
// Kept: the external atoms beside the candidate, here and below; a type of both would be made for the one call of `smallest_unfounded`.
fn facts(ext: &[u8; ATOM_PLACES], x: Atoms, found: &mut [u8; ATOM_PLACES])
    requires blank { Blank found.old }
    ensures { Both ext.now x.entry.marks.now found.new }
{
    for a in 0..=x.last.0 as usize {
        found[a] = u8::from(ext[a] == 1 && x.marks[a] == 1);
    }
}

// The least model of the reduct, by rounds until nothing is new.
fn least(
    tape: &[u32],
    index: &[u32],
    ext: &[u8; ATOM_PLACES],
    x: Atoms,
    found: &mut [u8; ATOM_PLACES],
)
    requires readable { Readable tape.now index.now }
    requires blank { Blank found.old }
    ensures { LeastBy (is_marked x.entry.marks.now) (is_marked ext.now) tape.now index.now found.new }
{
    facts(ext, x, found);
    while round(tape, index, x.marks, found) != 0 {}
}

// The smallest atom in x that is not found.
fn seek(x: Atoms, found: &[u8; ATOM_PLACES]) -> Option<AtomNo>
    ensures { Sought (as_unfounded result) x.entry.marks.now found.now }
{
    for a in 0..=x.last.0 {
        let v = a as usize;
        if x.marks[v] == 1 && found[v] != 1 {
            return Some(AtomNo(a));
        }
    }
    None
}

// The rules among the lines, by the places of their kinds, in the first places of the index.
fn list_rules<'a>(lines: Lines, index: &'a mut [u32]) -> &'a [u32]
    requires index_len_bound { length lines.tape.now ≤ rule_words * length index.old }
    requires rules_bound { length index.old ≤ longest_text }
    ensures { Indexed lines.entry.tape.now lines.entry.count result.now }
{
    let tape = lines.tape;
    let mut m = 0;
    for p in lines.places() {
        if word_at(tape, p, SAYS) == RULE {
            let q = p + SAYS;
            index[m] = q as u32;
            m += 1;
        }
    }
    &index[..m]
}

// The smallest unfounded atom of x by the rules among the lines, by an index with room for RULES of them.
fn unfounded_by<const RULES: usize>(
    lines: Lines,
    ext: &[u8; ATOM_PLACES],
    x: Atoms,
) -> Option<AtomNo>
    requires index_len_bound { length lines.tape.now ≤ rule_words * RULES }
    requires rules_bound { RULES ≤ longest_text }
    ensures { FoundedBy (as_unfounded result) (is_marked x.entry.marks.now) (is_marked ext.now) (lines_in lines.entry) }
{
    let mut index = [0u32; RULES];
    let rules = list_rules(lines, &mut index);
    let mut found = [0u8; ATOM_PLACES];
    least(lines.tape, rules, ext, x, &mut found);
    seek(x, &found)
}

// The smallest unfounded atom of x by the rules among the lines.
pub fn smallest_unfounded(lines: Lines, ext: &[u8; ATOM_PLACES], x: Atoms) -> Option<AtomNo>
    requires tape_len_bound { length lines.tape.now ≤ longest_text }
    ensures { FoundedBy (as_unfounded result) (is_marked x.entry.marks.now) (is_marked ext.now) (lines_in lines.entry) }
{
    if lines.tape.len() <= SHORT_TEXT {
        return unfounded_by::<SHORT_INDEX>(lines, ext, x);
    }
    unfounded_by::<LONG_INDEX>(lines, ext, x)
}
