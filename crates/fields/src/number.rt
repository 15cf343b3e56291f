// The fields of a line: a byte, a natural, an integer, a literal, an atom, a term number, an element number, a weight.
#![tactic(auto, using(crate::proofs::Naturals::naturals, crate::proofs::Words::words, crate::proofs::Readers::within), unfolding(crate::specs::Fields::byte, crate::specs::Fields::line_end, crate::specs::Fields::line_end_of, crate::specs::Fields::text_end, crate::specs::Fields::next_natural, crate::specs::Fields::natural_then, crate::specs::Fields::negative, crate::specs::Fields::integer, crate::specs::Fields::next_integer, crate::specs::Fields::literal, crate::specs::Fields::from_one, crate::specs::Fields::atom, crate::specs::Fields::next_atom, crate::specs::Fields::next_term, crate::specs::Fields::next_element, crate::specs::Fields::next_weight))]

ghost use Rattle.std.specs.Prelude.{◌≡◌, ◌+◌, ◌≤◌, ◌<◌, true, length};
ghost use Rattle.faults.specs.Limits.{largest_number, largest_bound};
ghost use Rattle.faults.specs.Values.{number};
ghost use Rattle.fields.specs.Fields.{all_positive, byte_at, byte, bytes, line_end, line_end_of, text_end, natural, next_natural, natural_then, field, negative, integer, next_integer, literal, from_one, atom, next_atom, next_term, next_element, next_weight, next};
ghost use Rattle.fields.specs.inner.Values.{as_passed, as_end, as_word, as_atom, as_term, as_element};

use crate::digits::{digits_at, field_end, is_natural, peek};
use crate::ends::return_feed;
use crate::{Cursor, FEED, Field, LineEnd, MINUS_SIGN, SPACE};
use faults::{
    AtomNo, ElementNo, Kind, LARGEST_WEIGHT, LAST_ATOM, LAST_ELEMENT, LAST_TERM, Refusal, TermNo,
};

impl Cursor {
    // The start of a text.
    pub fn start() -> Cursor
        ensures { result.at ≡ 0 }
    {
        Cursor { at: 0 }
    }

    // So many bytes further on.
    pub fn ahead(self, n: usize) -> Cursor
        requires { self.at + n < 18446744073709551616 }
        ensures { result.at ≡ self.at + n }
    {
        Cursor { at: self.at + n }
    }

    // Behind the field at the cursor, whatever it is.
    pub fn past_field(self, s: &[u8]) -> Cursor
        ensures { result.at ≡ self.at + length (field s.now self.at) }
    {
        Cursor {
            at: field_end(s, self.at),
        }
    }

    // The byte at the cursor, or 0 past the end.
    pub fn look(self, s: &[u8]) -> u8
        ensures { result ≡ byte_at s.now self.at }
    {
        peek(s, self.at)
    }

    // Exactly the byte `b`, which is not 0.
    pub fn byte(self, s: &[u8], b: u8) -> Result<Cursor, Refusal>
        requires { 0 < b }
        ensures { as_passed result ≡ byte b s.now self.at }
    {
        if self.look(s) == b {
            Ok(self.ahead(1))
        } else {
            Err(Kind::Grammar.at(self.at))
        }
    }

    // Exactly the bytes of `word`, none of which is 0.
    pub fn bytes(self, s: &[u8], word: &[u8]) -> Result<Cursor, Refusal>
        requires { all_positive word.now ≡ true }
        ensures { as_passed result ≡ bytes word.now s.now self.at }
    {
        let mut c = self;
        for b in word {
            c = c.byte(s, *b)?;
        }
        Ok(c)
    }

    // The line end at the cursor, and which of the two it is.
    pub fn line_end(self, s: &[u8]) -> Field<LineEnd>
        ensures { as_end result ≡ line_end s.now self.at }
    {
        if self.look(s) == FEED {
            return Ok((LineEnd::Feed, self.ahead(1)));
        }
        if return_feed(s, self.at) {
            return Ok((LineEnd::Return, self.ahead(2)));
        }
        Err(Kind::Grammar.at(self.at))
    }

    // The line end at the cursor, which must be as `ends` says.
    pub fn line_end_of(self, s: &[u8], ends: LineEnd) -> Result<Cursor, Refusal>
        ensures { as_passed result ≡ line_end_of ends s.now self.at }
    {
        let (met, c) = self.line_end(s)?;
        if met == ends {
            Ok(c)
        } else {
            Err(Kind::Grammar.at(self.at))
        }
    }

    // The end of the text.
    pub fn text_end(self, s: &[u8]) -> Result<Cursor, Refusal>
        ensures { as_passed result ≡ text_end s.now self.at }
    {
        if self.at < s.len() {
            return Err(Kind::Grammar.at(self.at));
        }
        Ok(self)
    }

    // The natural at the cursor, at most `most`, and refused as `beyond` where it is more.
    // Kept: a clause bounds `most` here, in `digits_at`, `next_natural`, `natural_then` and `from_one`, and the refusal beyond it goes beside; a type of both would be made of two constants at every call.
    pub fn natural(self, s: &[u8], most: u32, beyond: Kind) -> Field<u32>
        requires { most ≤ largest_bound }
        ensures { as_word result ≡ natural (number beyond) most s.now self.at }
    {
        let digits = digits_at(s, self.at, most);
        if !is_natural(s, self.at, digits.end) {
            return Err(Kind::Grammar.at(self.at));
        }
        if most < digits.value {
            return Err(beyond.at(self.at));
        }
        Ok((digits.value, Cursor { at: digits.end }))
    }

    // A space, and the natural after it.
    pub fn next_natural(self, s: &[u8], most: u32, beyond: Kind) -> Field<u32>
        requires { most ≤ largest_bound }
        ensures { as_word result ≡ next_natural (number beyond) most s.now self.at }
    {
        self.byte(s, SPACE)?.natural(s, most, beyond)
    }

    // A space, a natural, and the byte `b`, which is not 0, behind it.
    pub fn natural_then(self, s: &[u8], most: u32, beyond: Kind, b: u8) -> Field<u32>
        requires { (most ≤ largest_bound) × (0 < b) }
        ensures { as_word result ≡ natural_then (number beyond) most b s.now self.at }
    {
        let (v, c) = self.next_natural(s, most, beyond)?;
        Ok((v, c.byte(s, b)?))
    }

    // The natural after the minus at the cursor, as 2 v + 1.
    fn minus(self, s: &[u8], most: u32) -> Field<u32>
        requires { (most ≤ largest_number) × (self.at < length s.now) }
        ensures { as_word result ≡ negative most s.now self.at }
    {
        match self.ahead(1).natural(s, most, Kind::Bounds) {
            Ok((0, _)) => Err(Kind::Grammar.at(self.at)),
            Ok((v, c)) => Ok((2 * v + 1, c)),
            Err(r) => Err(r.kind.at(self.at)),
        }
    }

    // An integer from - low to high, as 2 v, or 2 v + 1 after a minus.
    fn integer(self, s: &[u8], low: u32, high: u32) -> Field<u32>
        requires { (low ≤ largest_number) × (high ≤ largest_number) }
        ensures { as_word result ≡ integer low high s.now self.at }
    {
        if self.look(s) == MINUS_SIGN {
            return self.minus(s, low);
        }
        let (v, c) = self.natural(s, high, Kind::Bounds)?;
        Ok((2 * v, c))
    }

    // A space, and the integer after it.
    pub fn next_integer(self, s: &[u8], low: u32, high: u32) -> Field<u32>
        requires { (low ≤ largest_number) × (high ≤ largest_number) }
        ensures { as_word result ≡ next_integer low high s.now self.at }
    {
        self.byte(s, SPACE)?.integer(s, low, high)
    }

    // A literal: an integer other than 0.
    fn literal(self, s: &[u8]) -> Field<u32>
        ensures { as_word result ≡ literal s.now self.at }
    {
        let (v, c) = self.integer(s, LAST_ATOM, LAST_ATOM)?;
        if v == 0 {
            return Err(Kind::Bounds.at(self.at));
        }
        Ok((v, c))
    }

    // A space, and the literal after it.
    pub(crate) fn next_literal(self, s: &[u8]) -> Field<u32>
        ensures { as_word result ≡ next literal s.now self.at }
    {
        self.byte(s, SPACE)?.literal(s)
    }

    // A natural from 1 to `most`; 0 is refused as `zero`.
    fn from_one(self, s: &[u8], most: u32, zero: Kind) -> Field<u32>
        requires { most ≤ largest_bound }
        ensures { as_word result ≡ from_one (number zero) most s.now self.at }
    {
        let (v, c) = self.natural(s, most, Kind::Bounds)?;
        if v == 0 {
            return Err(zero.at(self.at));
        }
        Ok((v, c))
    }

    // An atom; atom 0 is refused as `zero`.
    fn atom(self, s: &[u8], zero: Kind) -> Field<AtomNo>
        ensures { as_atom result ≡ atom (number zero) s.now self.at }
    {
        let (v, c) = self.from_one(s, LAST_ATOM, zero)?;
        Ok((AtomNo(v), c))
    }

    // A space, and the atom after it.
    pub fn next_atom(self, s: &[u8], zero: Kind) -> Field<AtomNo>
        ensures { as_atom result ≡ next_atom (number zero) s.now self.at }
    {
        self.byte(s, SPACE)?.atom(s, zero)
    }

    // A space, and the term number after it.
    pub fn next_term(self, s: &[u8]) -> Field<TermNo>
        ensures { as_term result ≡ next_term s.now self.at }
    {
        let (v, c) = self.next_natural(s, LAST_TERM, Kind::Bounds)?;
        Ok((TermNo(v), c))
    }

    // A space, and the element number after it.
    // Kept: two lines beside those of `next_term`; one generic function takes a trait with two impls, and names the type at each call.
    pub fn next_element(self, s: &[u8]) -> Field<ElementNo>
        ensures { as_element result ≡ next_element s.now self.at }
    {
        let (v, c) = self.next_natural(s, LAST_ELEMENT, Kind::Bounds)?;
        Ok((ElementNo(v), c))
    }

    // A space, and the weight after it.
    pub(crate) fn next_weight(self, s: &[u8]) -> Field<u32>
        ensures { as_word result ≡ next_weight s.now self.at }
    {
        self.byte(s, SPACE)?
            .from_one(s, LARGEST_WEIGHT, Kind::Bounds)
    }
}
