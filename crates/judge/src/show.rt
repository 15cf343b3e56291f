// Showing a fault: a part of the text or of the candidate, as it was lent.
ghost use Rattle.std.specs.Prelude.{◌≡◌, eqb};
ghost use Rattle.faults.specs.Values.{number};
ghost use Rattle.judge.specs.Shown.{in_text, Part, IsShown};

use faults::{Kind, Refusal};
use fields::{ends_of, part_end};

// Whether the place of a refusal is in the text.
fn in_text(kind: Kind) -> bool
    ensures { result ≡ in_text (number kind) }
{
    matches!(
        kind,
        Kind::Grammar
            | Kind::Carried
            | Kind::Bounds
            | Kind::Twice
            | Kind::Unknown
            | Kind::Second
            | Kind::NoDifference
            | Kind::Broken
    )
}

// Whether the place of a refusal is in the candidate.
fn in_candidate(kind: Kind) -> bool
    ensures { result ≡ eqb (number kind) 7 }
{
    matches!(kind, Kind::Candidate)
}

// The part of a line from a place on; nothing from a place beyond the end.
fn part_from(s: &[u8], place: usize) -> &[u8]
    ensures { Part result s.entry place }
{
    let rest = &s[place.min(s.len())..];
    // At the end or beyond it the slice, which may be of any length, is not walked for how its lines end.
    if s.len() <= place {
        return rest;
    }
    &rest[..part_end(rest, 0, ends_of(s))]
}

// The faulty part of the text or of the candidate; nothing for a refusal that has no place in them.
pub fn show<'a>(text: &'a [u8], cand: &'a [u8], refusal: Refusal) -> &'a [u8]
    ensures { IsShown result text.entry cand.entry (number refusal.kind) refusal.place }
{
    let kind = refusal.kind;
    let place = refusal.place;
    if in_text(kind) {
        return part_from(text, place);
    }
    if in_candidate(kind) {
        return part_from(cand, place);
    }
    &text[text.len()..]
}
