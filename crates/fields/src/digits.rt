// Bytes and digits of a text.
#![tactic(auto, using(std::proofs::lemmas::Grind::common_steps, std::proofs::lemmas::Option::gets, crate::proofs::Naturals::digits, crate::proofs::Decimal::decimal, crate::proofs::Runs::runs), unfolding(crate::specs::Fields::byte_at, crate::specs::Fields::field))]

ghost use Rattle.std.specs.Prelude.{◌≡◌, ◌+◌, ◌≤◌, min, length};
ghost use Rattle.faults.specs.Limits.{largest_bound};
ghost use Rattle.fields.specs.Fields.{byte_at, field, is_empty, is_natural, value};
ghost use Rattle.fields.specs.inner.Digits.{digits_at};

use crate::ends::{breaks_at, run_end};
use crate::{LineEnd, SPACE, ZERO_DIGIT};

// The value of digits, or one more than the most that is asked where it is beyond that, and where they end.
// Kept: a number and not an option; the digits go on behind the first that is beyond, and one `min` says what both are.
#[derive(Clone, Copy)]
pub(crate) struct Digits {
    pub(crate) value: u32,
    pub(crate) end: usize,
}

// The byte at `at`, or 0 past the end.
// Kept: a place and not a cursor, here, in ends.rt and in places.rt; `part_end` and `field_place`, which docs/CONTRACTS.md names, are asked of places where no cursor stands.
pub(crate) fn peek(s: &[u8], at: usize) -> u8
    ensures { result ≡ byte_at s.now at }
{
    s.get(at).copied().unwrap_or(0)
}

// Where the field that starts at `at` ends.
pub(crate) fn field_end(s: &[u8], at: usize) -> usize
    ensures { result ≡ at + length (field s.now at) }
{
    run_end(s, at, SPACE, LineEnd::Return)
}

// Whether a field ends at `at`: a space, a line end or the end of the text is there.
fn ends_field(s: &[u8], at: usize) -> bool
    ensures { result ≡ is_empty (field s.now at) }
{
    s.len() <= at || breaks_at(s, at, SPACE, LineEnd::Return)
}

// The digits that stand at `at`.
pub(crate) fn digits_at(s: &[u8], at: usize, most: u32) -> Digits
    requires { most ≤ largest_bound }
    ensures end_value { result.end ≡ at + length (digits_at s.now at) }
    ensures value_value { result.value ≡ min (value 0 (digits_at s.now at)) (most + 1) }
{
    let beyond = u64::from(most) + 1;
    let mut v: u64 = 0;
    for i in at..s.len() {
        let b = s[i];
        if !b.is_ascii_digit() {
            return Digits {
                value: v as u32,
                end: i,
            };
        }
        v = (v * 10 + u64::from(b - ZERO_DIGIT)).min(beyond);
    }
    Digits {
        value: v as u32,
        end: at.max(s.len()),
    }
}

// Whether the field at `at`, whose digits end at `end`, is a natural: `0`, or digits that don't begin with 0.
pub(crate) fn is_natural(s: &[u8], at: usize, end: usize) -> bool
    requires { end ≡ at + length (digits_at s.now at) }
    ensures { result ≡ is_natural (field s.now at) }
{
    at < end && (end <= at + 1 || peek(s, at) != ZERO_DIGIT) && ends_field(s, end)
}
