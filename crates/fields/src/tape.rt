// Lists and strings, as words of a tape.
#![tactic(auto, using(crate::proofs::Naturals::naturals, crate::proofs::Readers::within, crate::proofs::Runs::runs, crate::proofs::Taping::taping), unfolding(crate::specs::Fields::next_term, crate::specs::Fields::next_element, crate::specs::Fields::premise, crate::specs::Fields::char, crate::specs::Fields::item, crate::specs::Fields::counted, crate::specs::Fields::rest, crate::specs::Fields::rest_length, crate::specs::inner::Tape::on_tape))]

ghost use Rattle.std.specs.Prelude.{◌≡◌, ◌≤◌, ◌<◌, length};
ghost use Rattle.faults.specs.Limits.{most_count};
ghost use Rattle.faults.specs.Values.{number};
ghost use Rattle.fields.specs.Fields.{char, premise, item, items, counted, rest};
ghost use Rattle.fields.specs.inner.Bounds.{longest_read};
ghost use Rattle.fields.specs.inner.Tape.{on_tape, listed};
ghost use Rattle.fields.specs.inner.Values.{as_word, as_wrote};

use crate::ends::run_end;
use crate::{Cursor, FEED, Field, Item, LineEnd, Progress, WEIGHT_UNIT};
use faults::{Kind, LAST_ELEMENT, LAST_TERM, Refusal};

impl Cursor {
    // A byte of a string.
    fn char_at(self, s: &[u8]) -> Field<u32>
        ensures { as_word result ≡ char s.now self.at }
    {
        let b = self.look(s);
        if b == 0 || b == FEED {
            return Err(Kind::Grammar.at(self.at));
        }
        Ok((u32::from(b), self.ahead(1)))
    }

    // An atom of a head, as a word.
    fn atom_word(self, s: &[u8]) -> Field<u32>
        ensures { as_word result ≡ item Item.Atom s.now self.at }
    {
        let (atom, c) = self.next_atom(s, Kind::Bounds)?;
        Ok((atom.0, c))
    }

    // A literal and its weight, as one word.
    fn premise(self, s: &[u8]) -> Field<u32>
        ensures { as_word result ≡ premise s.now self.at }
    {
        let (literal, c) = self.next_literal(s)?;
        let (weight, d) = c.next_weight(s)?;
        Ok((WEIGHT_UNIT * weight + literal, d))
    }

    // An item of a list, as a word.
    // Kept: the definition `item` of specs/Fields.antt goes by the same cases.
    fn item(self, s: &[u8], what: Item) -> Field<u32>
        ensures { as_word result ≡ item what s.now self.at }
    {
        match what {
            Item::Atom => self.atom_word(s),
            Item::Literal => self.next_literal(s),
            Item::Premise => self.premise(s),
            Item::Term => self.next_natural(s, LAST_TERM, Kind::Bounds),
            Item::Element => self.next_natural(s, LAST_ELEMENT, Kind::Bounds),
            Item::Char => self.char_at(s),
        }
    }
}

impl Progress {
    // The number `n` and `n` items, as words.
    pub fn listed(self, s: &[u8], what: Item, n: u32, tape: &mut [u32]) -> Result<Progress, Refusal>
        requires { (self.out < self.cursor.at) × (self.cursor.at ≤ length s.now) × (length s.now ≤ length tape.old) }
        ensures { as_wrote result tape.new ≡ on_tape listed tape.old self.out (items what n s.now self.cursor.at) }
    {
        tape[self.out] = n;
        let first = self.out + 1;
        let end = first + n as usize;
        let mut c = self.cursor;
        for o in first..end {
            let (v, next) = c.item(s, what)?;
            tape[o] = v;
            c = next;
        }
        Ok(Progress {
            cursor: c,
            out: end,
        })
    }

    // A count at most `most`, and so many items, as words.
    pub fn counted(
        self,
        s: &[u8],
        what: Item,
        most: u32,
        beyond: Kind,
        tape: &mut [u32],
    ) -> Result<Progress, Refusal>
        requires { (most ≤ most_count) × (length s.now ≤ length tape.old) }
        ensures { as_wrote result tape.new ≡ on_tape listed tape.old self.out (counted what (number beyond) most s.now self.cursor.at) }
    {
        let (n, cursor) = self.cursor.next_natural(s, most, beyond)?;
        let d = Progress {
            cursor,
            out: self.out,
        };
        d.listed(s, what, n, tape)
    }

    // The bytes up to the line end, which is as `ends` says, behind their count, as words.
    pub fn rest(self, s: &[u8], ends: LineEnd, tape: &mut [u32]) -> Result<Progress, Refusal>
        requires { (self.out < self.cursor.at) × (self.cursor.at ≤ length s.now) × (length s.now ≤ length tape.old) × (length s.now ≤ longest_read) }
        ensures { as_wrote result tape.new ≡ on_tape listed tape.old self.out (rest ends s.now self.cursor.at) }
    {
        let end = run_end(s, self.cursor.at, 0, ends);
        let n = end - self.cursor.at;
        self.listed(s, Item::Char, n as u32, tape)
    }
}
