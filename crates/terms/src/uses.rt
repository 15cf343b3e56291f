// What a theory statement uses: the leftmost number that no line before it defines, by its field. The type of such a statement
// takes two fields and one word, so what is its word k on the tape is field k + 1 of its line.
ghost use Rattle.std.specs.Prelude.{◌≡◌, List, Bool, ℕ, ◌+◌, ◌≤◌, eqb, length};
ghost use Rattle.std.proofs.Math.Option.{none};
ghost use Rattle.basics.specs.Bools.{pick};
ghost use Rattle.faults.specs.inner.Places.{far_place};
ghost use Rattle.aspif.specs.Statements.{theory_in};
ghost use Rattle.aspif.specs.Grammar.{integer_of};
ghost use Rattle.aspif.specs.inner.Words.{guarded_kind, word, words_from, says_at};
ghost use Rattle.terms.specs.Reasons.{unknown_from, functor_use, unknown_use};
ghost use Rattle.terms.specs.inner.Tables.{role_of, entered, env_of};
ghost use Rattle.terms.specs.inner.Values.{as_option};
ghost use Rattle.terms.specs.declared.lines.Role.TheVariants as role;

use crate::difference::is_term;
use crate::tables::{Known, entry};
use aspif::kinds::{COMPOUND, GUARDED};
use aspif::walk::word_at;
use aspif::words::{
    ARGUMENTS, ELEMENTS, FIRST_ARGUMENT, FIRST_ELEMENT, FIRST_TERM, FUNCTOR, KIND, NAME, TERMS,
};

// The leftmost of the n numbers from word k of the statement at q on that is not entered.
fn unknown(tape: &[u32], q: usize, k: usize, n: u32, table: &[u32]) -> Option<usize>
    requires { (q ≤ far_place) × (k ≤ far_place) }
    ensures { as_option result ≡ unknown_from (entered table.now) (k + 1) (words_from tape.now (q + k) n) }
{
    for i in 0..n as usize {
        let u = word_at(tape, q + k + i, 0);
        if entry(table, u).is_none() {
            return Some(k + 1 + i);
        }
    }
    None
}

// A compound's t, where it is a term number that is not defined.
fn functor_use(t: u32, terms: &[u32]) -> Option<usize>
    ensures { as_option result ≡ unknown_from (entered terms.now) 3 (functor_use (integer_of t)) }
{
    if is_term(t) && entry(terms, t / 2).is_none() {
        return Some(FUNCTOR + 1);
    }
    None
}

// The leftmost unknown use of the statement at q, which defines a term: t, then the arguments.
pub fn term_use(tape: &[u32], q: usize, terms: &[u32]) -> Option<usize>
    requires { (q ≤ length tape.now) × (role_of (word tape.now q) ≡ role.Term) }
    ensures { (els : List ℕ) (seen : List Bool) → as_option result ≡ unknown_use (env_of tape.now terms.now els seen) (theory_in (says_at tape.now q)) }
{
    let kind = word_at(tape, q, KIND);
    if kind != COMPOUND {
        return None;
    }
    let t = word_at(tape, q, FUNCTOR);
    let n = word_at(tape, q, ARGUMENTS);
    functor_use(t, terms).or_else(|| unknown(tape, q, FIRST_ARGUMENT, n, terms))
}

// The leftmost unknown use of the statement at q, which collects an element: its terms.
pub fn element_use(tape: &[u32], q: usize, terms: &[u32]) -> Option<usize>
    requires { (q ≤ length tape.now) × (role_of (word tape.now q) ≡ role.Element) }
    ensures { (els : List ℕ) (seen : List Bool) → as_option result ≡ unknown_use (env_of tape.now terms.now els seen) (theory_in (says_at tape.now q)) }
{
    let n = word_at(tape, q, TERMS);
    unknown(tape, q, FIRST_TERM, n, terms)
}

// The leftmost unknown use of an operator and a bound, which stand behind n elements of the theory atom at q.
fn guard_use(tape: &[u32], q: usize, n: u32, terms: &[u32]) -> Option<usize>
    requires { q ≤ far_place }
    ensures { as_option result ≡ pick (eqb (word tape.now q) guarded_kind) (unknown_from (entered terms.now) (4 + n + 1) (words_from tape.now (q + (4 + n)) 2)) none }
{
    let kind = word_at(tape, q, KIND);
    if kind != GUARDED {
        return None;
    }
    let behind = FIRST_ELEMENT + n as usize;
    unknown(tape, q, behind, 2, terms)
}

// The leftmost unknown use of the theory atom at q: its name, then its elements, then operator and bound.
pub fn atom_use(known: &Known, q: usize) -> Option<usize>
    requires { (q ≤ length known.now.tape.now) × (role_of (word known.now.tape.now q) ≡ role.Atom) }
    ensures { (seen : List Bool) → as_option result ≡ unknown_use (env_of known.now.tape.now known.now.terms.now known.now.elements.now seen) (theory_in (says_at known.now.tape.now q)) }
{
    let Known {
        tape,
        terms,
        elements,
    } = *known;
    let n = word_at(tape, q, ELEMENTS);
    unknown(tape, q, NAME, 1, terms)
        .or_else(|| unknown(tape, q, FIRST_ELEMENT, n, elements))
        .or_else(|| guard_use(tape, q, n, terms))
}
