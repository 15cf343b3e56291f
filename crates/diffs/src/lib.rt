// The earliest times that keep differences x - y ≤ k, or a negative cycle.
// A cycle is shown from its smallest keys[i] on, and labels[i] is the number that shows difference number i.
// Kept: keys and labels are slices of their own beside the differences; a caller may lend one slice as both, as the judge does.
#![tactic(auto)]

ghost use Rattle.std.specs.Prelude.{◌≡◌, All, map, ◌++◌, drop, ◌<◌, ◌≤◌, ◌^◌, length};
ghost use Rattle.faults.specs.inner.Places.{term_places};
ghost use Rattle.diffs.specs.Diff.{Sum};
ghost use Rattle.diffs.specs.inner.Answer.{cell, said, diff_at, Given, Decided};
ghost use Rattle.diffs.specs.inner.Steps.{up, down, most_down};
ghost use Rattle.diffs.specs.inner.Steps.{Relaxed, Underway, RoundUpTo, Fresh, SettledOrStuck};
ghost use Rattle.diffs.specs.inner.Steps.{FoundPlace, Traceable, Traced, Numbers, LeastKey, Laid};

use faults::{TERM_PLACES, TermNo};

// The difference x - y ≤ k.
#[derive(Clone, Copy, Debug, PartialEq, Eq)]
pub struct Difference {
    pub x: TermNo,
    pub y: TermNo,
    pub k: i32,
}

impl Difference {
    // 0 - 0 ≤ 0, which fills a slice before differences are stored in it.
    pub const ZERO: Difference = Difference {
        x: TermNo(0),
        y: TermNo(0),
        k: 0,
    };
}

// What the bound k adds: k, or 0 where it is below 0.
fn up_of(k: i32) -> u64
    ensures { result ≡ up k }
{
    u64::from(k.max(0).unsigned_abs())
}

// What the bound k takes away: -k, or 0 where it is not below 0.
// Kept: one line beside that of `up_of`.
fn down_of(k: i32) -> u64
    ensures { result ≡ down k }
{
    u64::from(k.min(0).unsigned_abs())
}

// Whether the difference d, of number i, was not kept: then its y is raised to x - k, and i becomes its parent.
// Kept: times and parents beside one another; the caller lends the times, the parents are of `decide`, and a type of both would be made for three calls.
fn relax(d: Difference, i: u32, t: &mut [u64; TERM_PLACES], p: &mut [u32; TERM_PLACES]) -> bool
    requires named { (d.x.0 < term_places) × (d.y.0 < term_places) }
    requires bound { (cell t.old d.x.0 < 2 ^ 62) × (cell t.old d.y.0 < 2 ^ 62) }
    ensures step { Relaxed result (said d) i t.old p.old t.new p.new }
    ensures small { down d.k ≤ most_down }
{
    let from = d.x.0 as usize;
    let to = d.y.0 as usize;
    let u = up_of(d.k);
    let a = t[from] + down_of(d.k);
    let b = t[to] + u;
    if b < a {
        t[to] = a - u;
        p[to] = i;
        true
    } else {
        false
    }
}

// What a round raised last, which relaxes each difference once.
fn round(
    differences: &[Difference],
    t: &mut [u64; TERM_PLACES],
    p: &mut [u32; TERM_PLACES],
) -> Option<TermNo>
    requires { Underway differences.now t.old p.old }
    ensures { RoundUpTo differences.now (length differences.now) result t.old p.old t.new p.new }
{
    let mut last = None;
    for (i, d) in differences.iter().enumerate() {
        if relax(*d, i as u32, t, p) {
            last = Some(d.y);
        }
    }
    last
}

// None: t has the earliest times. Or a name: it was raised in the round after as many rounds as the fewer of names and differences.
fn settle(
    differences: &[Difference],
    t: &mut [u64; TERM_PLACES],
    p: &mut [u32; TERM_PLACES],
) -> Option<TermNo>
    requires { Fresh differences.now t.old }
    ensures { SettledOrStuck differences.now result t.new p.new }
{
    let most = TERM_PLACES.min(differences.len());
    for _ in 0..most {
        round(differences, t, p)?;
    }
    round(differences, t, p)
}

// The first place of a walk whose difference raises a; None where there is none.
fn find(differences: &[Difference], walk: &[u32], a: TermNo) -> Option<usize>
    requires { All (λ i. i < length differences.now) walk.now }
    ensures { FoundPlace differences.now walk.now a.0 result }
{
    walk.iter().position(|e| differences[*e as usize].y == a)
}

// The part of w where a negative cycle stands: it follows the parents from `last` until a name comes twice.
fn trace<'a>(
    differences: &[Difference],
    p: &[u32; TERM_PLACES],
    last: TermNo,
    w: &'a mut [u32; TERM_PLACES],
) -> &'a [u32]
    requires { Traceable differences.now p.now last.0 }
    ensures { Traced differences.now result.now }
{
    let mut a = last;
    let mut start = TERM_PLACES;
    loop {
        if let Some(q) = find(differences, &w[start..], a) {
            let end = start + q + 1;
            return &w[start..end];
        }
        let e = p[a.0 as usize];
        start -= 1;
        w[start] = e;
        a = differences[e as usize].x;
    }
}

// The sum of the bounds that a walk lists.
fn sum_of(differences: &[Difference], walk: &[u32]) -> i64
    requires { Numbers (length differences.now) walk.now }
    ensures { result ≡ Sum (map (diff_at differences.now) walk.now) }
{
    let mut sum: i64 = 0;
    for e in walk {
        sum += i64::from(differences[*e as usize].k);
    }
    sum
}

// The place of a walk whose key is the smallest.
fn least(keys: &[u32], walk: &[u32]) -> usize
    requires { Numbers (length keys.now) walk.now }
    ensures { LeastKey keys.now walk.now result }
{
    let mut q = 0;
    for (i, e) in walk.iter().enumerate() {
        if keys[*e as usize] < keys[walk[q] as usize] {
            q = i;
        }
    }
    q
}

// The labels of a part of a walk now stand in the room's first places.
fn show(labels: &[u32], part: &[u32], room: &mut [u32])
    requires { All (λ i. i < length labels.now) part.now × (length part.now ≤ length room.old) }
    ensures { room.new ≡ map (cell labels.now) part.now ++ drop (length part.now) room.old }
{
    for (j, e) in part.iter().enumerate() {
        room[j] = labels[*e as usize];
    }
}

// The length of a walk, whose labels now stand in the room's first places, from the smallest key on and round to it.
fn lay(keys: &[u32], labels: &[u32], walk: &[u32], room: &mut [u32]) -> usize
    requires numbers { Numbers (length keys.now) walk.now × (length labels.now ≡ length keys.now) }
    requires start_in_bounds { length walk.now ≤ length room.old }
    ensures { Laid keys.now labels.now walk.now room.old room.new result }
{
    let q = least(keys, walk);
    let n = walk.len() - q;
    show(labels, &walk[q..], room);
    show(labels, &walk[..q], &mut room[n..]);
    walk.len()
}

// None: t has the earliest times. Or a number: the labels of a negative cycle stand in so many first places of the room.
pub fn decide(
    differences: &[Difference],
    keys: &[u32],
    labels: &[u32],
    t: &mut [u64; TERM_PLACES],
    room: &mut [u32],
) -> Option<u32>
    requires { Given differences.now keys.now labels.now t.old room.old }
    ensures { Decided result (length differences.now) (diff_at differences.now) keys.now labels.now t.new room.old room.new }
{
    let mut p = [0u32; TERM_PLACES];
    let last = settle(differences, t, &mut p)?;
    let mut w = [0u32; TERM_PLACES];
    let walk = trace(differences, &p, last, &mut w);
    let sum = sum_of(differences, walk);
    if sum < 0 {
        let n = lay(keys, labels, walk, room);
        return Some(n as u32);
    }
    // Not reached: the bounds of the cycle found sum below zero.
    None
}
