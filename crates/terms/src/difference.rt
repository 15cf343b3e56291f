// The difference that a theory atom states.
ghost use Rattle.std.specs.Prelude.{◌≡◌, ◌+◌, ◌≤◌, ◌<◌, length, neg_ℤ};
ghost use Rattle.aspif.specs.Grammar.{integer_of};
ghost use Rattle.terms.specs.Terms.{same_bytes, is_string, is_minus, opposite, bound_of, pair_of, pair_in, joined};
ghost use Rattle.aspif.specs.inner.Words.{words_from};
ghost use Rattle.terms.specs.inner.Tables.{is_term, minus_of, term_at, terms_by, elements_by, stated_on};
ghost use Rattle.terms.specs.inner.Values.{as_option, as_sides, as_said, OfKind};

use crate::tables::{Known, entry};
use aspif::kinds::{COMPOUND, ELEMENT, GUARDED, NUMBER, STRING};
use aspif::walk::{element_at, term_at, word_at};
use aspif::words::{
    ARGUMENTS, BOUND, CONDITION, ELEMENTS, FIRST_ARGUMENT, FIRST_BYTE, FIRST_ELEMENT, FIRST_TERM,
    FUNCTOR, KIND, LENGTH, NAME, OPERATOR, SECOND_ARGUMENT, TERMS, VALUE,
};
use diffs::Difference;
use faults::{ElementNo, TermNo};

// Whether the n bytes of the string at q are those wanted.
fn same(tape: &[u32], q: usize, n: u32, wanted: &[u8]) -> bool
    requires { length wanted.now ≤ 8 }
    ensures { result ≡ same_bytes (words_from tape.now (q + 3) n) wanted.now }
{
    if n as usize != wanted.len() {
        return false;
    }
    for (i, w) in wanted.iter().enumerate() {
        let b = word_at(tape, q, i + FIRST_BYTE);
        if b != u32::from(*w) {
            return false;
        }
    }
    true
}

// Whether a compound's t is a term number.
pub fn is_term(t: u32) -> bool
    ensures { result ≡ is_term (integer_of t) }
{
    t % 2 == 0 || t == 1
}

// The integer that is kept as w.
fn signed(w: u32) -> i32
    ensures { result ≡ integer_of w }
{
    let k = (w / 2) as i32;
    if w % 2 == 0 { k } else { -k }
}

// The integer that is kept as w, negated.
fn negated(w: u32) -> i32
    ensures { result ≡ neg_ℤ (integer_of w) }
{
    -signed(w)
}

impl Known<'_> {
    // The place of the statement that defines a number of a table, if it is of that kind.
    fn statement(&self, table: &[u32], number: u32, kind: u32) -> Option<usize>
        ensures { OfKind self.now.tape.now table.now number kind result }
    {
        entry(table, number).filter(|q| word_at(self.tape, *q, KIND) == kind)
    }

    // Whether a term is the string wanted.
    fn named(&self, u: TermNo, wanted: &[u8]) -> bool
        requires { length wanted.now ≤ 8 }
        ensures { result ≡ is_string wanted.now (terms_by self.now u.0) }
    {
        let Some(q) = self.statement(self.terms, u.0, STRING) else {
            return false;
        };
        let n = word_at(self.tape, q, LENGTH);
        same(self.tape, q, n, wanted)
    }

    // Whether a compound's t is the string `-`.
    fn is_minus(&self, t: u32) -> bool
        ensures { result ≡ is_minus (terms_by self.now) (integer_of t) }
    {
        is_term(t) && self.named(TermNo(t / 2), b"-")
    }

    // A numeric term, negated.
    fn against(&self, u: TermNo) -> Option<i32>
        ensures { as_option result ≡ opposite (terms_by self.now u.0) }
    {
        let q = self.statement(self.terms, u.0, NUMBER)?;
        let w = word_at(self.tape, q, VALUE);
        Some(negated(w))
    }

    // Whether the statement at q defines a compound of `-` with `count` arguments.
    fn minus_of(&self, q: usize, count: u32) -> bool
        ensures { result ≡ minus_of (terms_by self.now) count (term_at self.now.tape.now q) }
    {
        let kind = word_at(self.tape, q, KIND);
        if kind != COMPOUND {
            return false;
        }
        let n = word_at(self.tape, q, ARGUMENTS);
        if n != count {
            return false;
        }
        let t = word_at(self.tape, q, FUNCTOR);
        self.is_minus(t)
    }

    // The bound that a term gives.
    fn bound(&self, u: TermNo) -> Option<i32>
        ensures { as_option result ≡ bound_of (terms_by self.now) (terms_by self.now u.0) }
    {
        let q = entry(self.terms, u.0)?;
        let kind = word_at(self.tape, q, KIND);
        if kind == NUMBER {
            let w = word_at(self.tape, q, VALUE);
            return Some(signed(w));
        }
        if !self.minus_of(q, 1) {
            return None;
        }
        let n = term_at(self.tape, q, FIRST_ARGUMENT);
        self.against(n)
    }

    // The two sides that a term has.
    fn pair(&self, u: TermNo) -> Option<(TermNo, TermNo)>
        ensures { as_sides result ≡ pair_of (terms_by self.now) (terms_by self.now u.0) }
    {
        let q = entry(self.terms, u.0)?;
        if !self.minus_of(q, 2) {
            return None;
        }
        let x = term_at(self.tape, q, FIRST_ARGUMENT);
        let y = term_at(self.tape, q, SECOND_ARGUMENT);
        Some((x, y))
    }

    // The two sides in an element.
    fn pair_in(&self, v: ElementNo) -> Option<(TermNo, TermNo)>
        ensures { as_sides result ≡ pair_in (terms_by self.now) (elements_by self.now v.0) }
    {
        let q = self.statement(self.elements, v.0, ELEMENT)?;
        let n = word_at(self.tape, q, TERMS);
        if n != 1 {
            return None;
        }
        let m = word_at(self.tape, q, CONDITION);
        if m != 0 {
            return None;
        }
        let w = term_at(self.tape, q, FIRST_TERM);
        self.pair(w)
    }

    // The difference of the element v, with the term u as its bound.
    fn inside(&self, v: ElementNo, u: TermNo) -> Option<Difference>
        ensures { as_said result ≡ joined (pair_in (terms_by self.now) (elements_by self.now v.0)) (bound_of (terms_by self.now) (terms_by self.now u.0)) }
    {
        let (x, y) = self.pair_in(v)?;
        let k = self.bound(u)?;
        Some(Difference { x, y, k })
    }

    // The difference that the theory atom at q states.
    pub fn difference(&self, q: usize) -> Option<Difference>
        ensures { as_said result ≡ stated_on self.now.tape.now self.now.terms.now self.now.elements.now q }
    {
        let kind = word_at(self.tape, q, KIND);
        if kind != GUARDED {
            return None;
        }
        let n = word_at(self.tape, q, ELEMENTS);
        if n != 1 {
            return None;
        }
        let name = term_at(self.tape, q, NAME);
        if !self.named(name, b"diff") {
            return None;
        }
        let g = term_at(self.tape, q, OPERATOR);
        if !self.named(g, b"<=") {
            return None;
        }
        let v = element_at(self.tape, q, FIRST_ELEMENT);
        let u = term_at(self.tape, q, BOUND);
        self.inside(v, u)
    }
}
