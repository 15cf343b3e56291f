// Rules, outputs and comments: the rest of a line whose type has been read, onto the tape.
#![tactic(auto, using(crate::proofs::Far::far, crate::proofs::Coding::literals_forth, crate::proofs::Coding::premises_forth), unfolding(crate::specs::Grammar::heads, crate::specs::Grammar::literals, crate::specs::Grammar::normal_body, crate::specs::Grammar::weight_body, crate::specs::Grammar::body, crate::specs::Grammar::rule_line, crate::specs::Grammar::output_line, crate::specs::Grammar::comment_line, fields::specs::Fields::string, fields::specs::inner::Tape::on_tape))]

ghost use Rattle.std.specs.Prelude.{◌≡◌, ◌+◌, ◌≤◌, ◌<◌, length};
ghost use Rattle.fields.specs.inner.Bounds.{longest_read};
ghost use Rattle.fields.specs.inner.Tape.{on_tape, listed};
ghost use Rattle.fields.specs.inner.Values.{as_wrote};
ghost use Rattle.aspif.specs.Grammar.{heads, literals, normal_body, weight_body, body, rule_line, output_line, comment_line};
ghost use Rattle.aspif.specs.inner.Words.{body_words, words_of};

use crate::kinds::{COMMENT, NORMAL, OUTPUT, RULE, WEIGHTS};
use crate::tape::{begin, put};
use faults::{Kind, LARGEST_BOUND, MOST_COUNT, Refusal};
use fields::{Item, LineEnd, Progress, SPACE};

// The atoms of a head of a kind: in a plain one, a count of 2 or more is not carried.
fn heads(at: Progress, s: &[u8], kind: u32, tape: &mut [u32]) -> Result<Progress, Refusal>
    requires { length s.now ≤ length tape.old }
    ensures { as_wrote result tape.new ≡ on_tape listed tape.old at.out (heads kind s.now at.cursor.at) }
{
    match kind {
        0 => at.counted(s, Item::Atom, 1, Kind::Carried, tape),
        _ => at.counted(s, Item::Atom, MOST_COUNT, Kind::Bounds, tape),
    }
}

// A count and so many literals.
pub fn literals(at: Progress, s: &[u8], tape: &mut [u32]) -> Result<Progress, Refusal>
    requires { length s.now ≤ length tape.old }
    ensures { as_wrote result tape.new ≡ on_tape listed tape.old at.out (literals s.now at.cursor.at) }
{
    at.counted(s, Item::Literal, MOST_COUNT, Kind::Bounds, tape)
}

// A normal body behind its kind: a count and so many literals.
fn normal_body(at: Progress, s: &[u8], tape: &mut [u32]) -> Result<Progress, Refusal>
    requires { (at.out + 2 ≤ at.cursor.at) × (at.cursor.at ≤ length s.now) × (length s.now ≤ length tape.old) }
    ensures { as_wrote result tape.new ≡ on_tape body_words tape.old at.out (normal_body s.now at.cursor.at) }
{
    let out = begin(tape, at.out, NORMAL, 0);
    let d = Progress {
        cursor: at.cursor,
        out,
    };
    literals(d, s, tape)
}

// A weight body behind its kind: a lower bound, a count, and literal and weight in turn.
fn weight_body(at: Progress, s: &[u8], tape: &mut [u32]) -> Result<Progress, Refusal>
    requires { length s.now ≤ length tape.old }
    ensures { as_wrote result tape.new ≡ on_tape body_words tape.old at.out (weight_body s.now at.cursor.at) }
{
    let (k, cursor) = at.cursor.next_natural(s, LARGEST_BOUND, Kind::Bounds)?;
    let out = begin(tape, at.out, WEIGHTS, k);
    Progress { cursor, out }.counted(s, Item::Premise, MOST_COUNT, Kind::Bounds, tape)
}

// A body: its kind, and what is behind it.
fn body(at: Progress, s: &[u8], tape: &mut [u32]) -> Result<Progress, Refusal>
    requires { length s.now ≤ length tape.old }
    ensures { as_wrote result tape.new ≡ on_tape body_words tape.old at.out (body s.now at.cursor.at) }
{
    let (kind, cursor) = at.cursor.next_natural(s, 1, Kind::Grammar)?;
    let d = Progress {
        cursor,
        out: at.out,
    };
    match kind {
        0 => normal_body(d, s, tape),
        _ => weight_body(d, s, tape),
    }
}

// A rule: head and body.
pub fn rule_line(at: Progress, s: &[u8], tape: &mut [u32]) -> Result<Progress, Refusal>
    requires { length s.now ≤ length tape.old }
    ensures { as_wrote result tape.new ≡ on_tape words_of tape.old at.out (rule_line s.now at.cursor.at) }
{
    let (kind, cursor) = at.cursor.next_natural(s, 1, Kind::Grammar)?;
    let out = begin(tape, at.out, RULE, kind);
    let d = heads(Progress { cursor, out }, s, kind, tape)?;
    body(d, s, tape)
}

// An output: a string and literals.
pub fn output_line(at: Progress, s: &[u8], tape: &mut [u32]) -> Result<Progress, Refusal>
    requires { length s.now ≤ length tape.old }
    ensures { as_wrote result tape.new ≡ on_tape words_of tape.old at.out (output_line s.now at.cursor.at) }
{
    let (n, cursor) = at.cursor.natural_then(s, MOST_COUNT, Kind::Bounds, SPACE)?;
    let out = put(tape, at.out, OUTPUT);
    let d = Progress { cursor, out }.listed(s, Item::Char, n, tape)?;
    literals(d, s, tape)
}

// A comment: a space, and anything up to the line end.
pub fn comment_line(
    at: Progress,
    s: &[u8],
    ends: LineEnd,
    tape: &mut [u32],
) -> Result<Progress, Refusal>
    requires { (at.out < at.cursor.at) × (length s.now ≤ length tape.old) × (length s.now ≤ longest_read) }
    ensures { as_wrote result tape.new ≡ on_tape words_of tape.old at.out (comment_line ends s.now at.cursor.at) }
{
    let cursor = at.cursor.byte(s, SPACE)?;
    let out = put(tape, at.out, COMMENT);
    Progress { cursor, out }.rest(s, ends, tape)
}
