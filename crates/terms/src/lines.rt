// One line in its turn: refused where something is wrong with it, else entered.
ghost use Rattle.std.specs.Prelude.{◌≡◌, List, Bool, ℕ, ◌+◌, ◌≤◌, ◌<◌, length};
ghost use Rattle.faults.specs.Limits.{longest_text};
ghost use Rattle.aspif.specs.inner.Kept.{LineOn};
ghost use Rattle.terms.specs.inner.Tables.{role_of, place_in};
ghost use Rattle.terms.specs.inner.Values.{refusal_at, Defines, LineFor, Takes};
ghost use Rattle.terms.specs.declared.lines.Role.TheVariants as role;

use crate::tables::{Known, enter, entry};
use crate::uses::{atom_use, element_use, term_use};
use aspif::kinds::{ATOM, COMPOUND, ELEMENT, GUARDED, NUMBER, STRING};
use aspif::walk::{atom_at, element_at, term_at, word_at};
use aspif::words::{OF, PLACE, SAYS};
use diffs::Difference;
use faults::{ATOM_PLACES, AtomNo, ELEMENT_PLACES, Kind, Refusal, TERM_PLACES};
use fields::field_place;

// The field whose place is that of the line.
const FIRST_FIELD: usize = 0;

// What a line is for.
// Kept: a case and not a closure; `LineFor` and the promises of `term_use`, `element_use` and `atom_use` say by it of which lines they speak.
#[derive(Clone, Copy, Debug, PartialEq, Eq)]
pub enum Role {
    Term,
    Element,
    Atom,
    Other,
}

// A line of the text, which stands on the tape from p on.
#[derive(Clone, Copy)]
pub struct LineAt<'a> {
    pub text: &'a [u8],
    pub tape: &'a [u32],
    pub p: usize,
}

// What a line does in its turn: it adds no difference, or the one of an atom that it states, or it is refused.
pub type Turn = Result<Option<(AtomNo, Difference)>, Refusal>;

// The role of the lines of a kind.
#[tactic(auto, unfolding(crate::specs::inner::Tables::role_of))]
fn role_of(kind: u32) -> Role
    ensures { result ≡ role_of kind }
{
    match kind {
        NUMBER | STRING | COMPOUND => Role::Term,
        ELEMENT => Role::Element,
        ATOM | GUARDED => Role::Atom,
        _ => Role::Other,
    }
}

impl LineAt<'_> {
    // The refusal of the line, placed at one of its fields.
    fn refusal(&self, kind: Kind, field: usize) -> Refusal
        ensures { result ≡ refusal_at self.now.text.now self.now.tape.now self.now.p kind field }
    {
        let line = word_at(self.tape, self.p, PLACE);
        let place = field_place(self.text, field, line as usize);
        kind.at(place)
    }

    // Enters a number that the line defines in its table; refused where it is defined already, or where the line uses what is unknown.
    fn define(&self, table: &mut [u32], number: u32, unknown: Option<usize>) -> Turn
        requires { (self.now.p + 2 ≤ longest_text) × (number < length table.old) }
        ensures { Defines self.now.text.now self.now.tape.now self.now.p table.old number (place_in table.old number) unknown result table.new }
    {
        let defined = entry(table, number);
        if defined.is_some() {
            return Err(self.refusal(Kind::Twice, FIRST_FIELD));
        }
        if let Some(field) = unknown {
            return Err(self.refusal(Kind::Unknown, field));
        }
        enter(table, number, self.p + SAYS);
        Ok(None)
    }

    // Takes the line, which defines a term.
    fn take_term(&self, terms: &mut [u32; TERM_PLACES]) -> Turn
        requires { LineFor role.Term self.now }
        ensures { (els : List ℕ) (seen : List Bool) → Takes self.now terms.old els seen result terms.new els seen }
    {
        let q = self.p + SAYS;
        let u = term_at(self.tape, q, OF);
        let unknown = term_use(self.tape, q, terms);
        self.define(terms, u.0, unknown)
    }

    // Takes the line, which collects an element.
    // Kept: three lines beside those of `take_term`, which differ in what they call; `define` has what both do.
    fn take_element(&self, terms: &[u32], elements: &mut [u32; ELEMENT_PLACES]) -> Turn
        requires { LineFor role.Element self.now }
        ensures { (seen : List Bool) → Takes self.now terms.now elements.old seen result terms.now elements.new seen }
    {
        let q = self.p + SAYS;
        let v = element_at(self.tape, q, OF);
        let unknown = element_use(self.tape, q, terms);
        self.define(elements, v.0, unknown)
    }

    // Takes the line, which states a theory atom.
    fn take_atom(&self, terms: &[u32], elements: &[u32], seen: &mut [bool; ATOM_PLACES]) -> Turn
        requires { LineFor role.Atom self.now }
        ensures { Takes self.now terms.now elements.now seen.old result terms.now elements.now seen.new }
    {
        let q = self.p + SAYS;
        let known = Known {
            tape: self.tape,
            terms,
            elements,
        };
        let unknown = atom_use(&known, q);
        if let Some(field) = unknown {
            return Err(self.refusal(Kind::Unknown, field));
        }
        let a = atom_at(self.tape, q, OF);
        let i = a.0 as usize;
        if seen[i] {
            return Err(self.refusal(Kind::Second, FIRST_FIELD));
        }
        let Some(d) = known.difference(q) else {
            return Err(self.refusal(Kind::NoDifference, FIRST_FIELD));
        };
        seen[i] = true;
        Ok(Some((a, d)))
    }

    // Takes the line.
    pub fn take(
        &self,
        terms: &mut [u32; TERM_PLACES],
        elements: &mut [u32; ELEMENT_PLACES],
        seen: &mut [bool; ATOM_PLACES],
    ) -> Turn
        requires { LineOn self.now.tape.now self.now.p × (length self.now.tape.now ≤ longest_text) }
        ensures { Takes self.now terms.old elements.old seen.old result terms.new elements.new seen.new }
    {
        let kind = word_at(self.tape, self.p, SAYS);
        let role = role_of(kind);
        match role {
            Role::Term => self.take_term(terms),
            Role::Element => self.take_element(terms, elements),
            Role::Atom => self.take_atom(terms, elements, seen),
            Role::Other => Ok(None),
        }
    }
}
