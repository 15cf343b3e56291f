// Runs the judge's vectors: prints what judging gives for each pair of a text and a candidate of `plans`, and for two long
// texts: the verdict, then the timetable's bytes and times, or the faulty part.
#![tactic(auto)]

ghost use Rattle.std.specs.Prelude.{◌≡◌, ◌≤◌, length};
ghost use Rattle.files.specs.inner.Cases.{case_at, next_at};
ghost use Rattle.vectors.specs.inner.Long.{commented};

use faults::{CYCLE_ROOM, LONGEST_TEXT, TABLE_ROOM, TermNo};
use files::container::case_at;
use files::load;
use judge::Verdict;
use judge::show::show;

// The terms whose times are asked of each timetable: those below.
const ASKED: u32 = 16;

// The length of the shortest text that is too long.
const TOO_LONG: usize = LONGEST_TEXT + 1;

// Prints a word, how many bytes there are, and each as a number.
fn print_numbers<R: Print>(rt: &R, word: &str, s: &[u8]) {
    let n = s.len();
    let _ = print!(rt; "{word} {n}");
    for b in s {
        let _ = print!(rt; " {b}");
    }
    let _ = println!(rt);
}

// Prints a space and the time of a term in a timetable, or why there is none: the refusal's number and place.
fn print_time<R: Print>(rt: &R, table: &[u8], term: u32) {
    let _ = match judge::time(table, TermNo(term)) {
        Ok(time) => print!(rt; " {time}"),
        Err(refusal) => print!(rt; " {}/{}", refusal.kind.number(), refusal.place),
    };
}

// Prints the times of the terms that are asked.
fn print_times<R: Print>(rt: &R, table: &[u8]) {
    let _ = print!(rt; "times");
    for term in 0..ASKED {
        print_time(rt, table, term);
    }
    let _ = println!(rt);
}

// Prints what is given for a timetable without its last byte.
fn print_cut<R: Print>(rt: &R, table: &[u8]) {
    let Some((_, front)) = table.split_last() else {
        return;
    };
    let _ = print!(rt; "cut");
    print_time(rt, front, 0);
    let _ = println!(rt);
}

// Prints the bytes and the times of a timetable.
fn print_table<R: Print>(rt: &R, table: &[u8]) {
    print_numbers(rt, "table", table);
    print_times(rt, table);
    print_cut(rt, table);
}

// Prints what is asked besides the verdict: the timetable at the start of a room, or the faulty part.
fn print_more<R: Print>(rt: &R, verdict: Verdict, text: &[u8], cand: &[u8], room: &[u8]) {
    match verdict {
        Verdict::Accepted(n) => print_table(rt, &room[..n.min(room.len())]),
        Verdict::Refused(refusal) => print_numbers(rt, "shown", show(text, cand, refusal)),
    }
}

// Judges a pair, and prints what that gives.
fn print_pair<R: Print>(rt: &R, text: &[u8], cand: &[u8]) {
    let mut room = [0u8; TABLE_ROOM];
    let mut cycle = [0u32; CYCLE_ROOM];
    let verdict = judge::judge(text, cand, &mut room, &mut cycle);
    let mut out = io::large_buffer();
    let n = report::write(&mut out, verdict, &room, &cycle);
    let _ = rt.write_all(&out[..n]);
    print_more(rt, verdict, text, cand, &room);
}

// Writes a first line and the start of a comment at the start of a text, and the end of the comment and the last line at its end.
fn put_ends(text: &mut [u8])
    requires { 16 ≤ length text.old }
    ensures { text.new ≡ commented text.old }
{
    let end = text.len() - 3;
    text[..13].copy_from_slice(b"asp 1 0 0\n10 ");
    text[end..].copy_from_slice(b"\n0\n");
}

// Names a text of n bytes, a comment between its first line and its last, and judges it with the empty candidate.
fn print_long<R: Print>(rt: &R, n: usize)
    requires { (16 ≤ n) × (n ≤ 60001) }
{
    let _ = println!(rt; "long-{n}");
    let mut room = [b'c'; TOO_LONG];
    let text = &mut room[..n];
    put_ends(text);
    print_pair(rt, text, b"\n");
}

// Runs the pair at a place of a container, and gives the place of the next; the end where no whole pair stands.
#[tactic(auto, using(files::proofs::Cases::next_end))]
fn run_at<R: Print>(rt: &R, s: &[u8], at: usize) -> usize
    ensures { result ≡ next_at s.now (case_at s.now (next_at s.now (case_at s.now at))) }
{
    let Some(text) = case_at(s, at) else {
        return s.len();
    };
    let Some(cand) = case_at(s, text.end + 1) else {
        return s.len();
    };
    let _ = rt.write_all(&s[at..text.name]);
    let _ = println!(rt);
    print_pair(rt, &s[text.start..text.end], &s[cand.start..cand.end]);
    cand.end + 1
}

// Runs the pairs of a container.
#[tactic(auto, using(files::proofs::Cases::second_further))]
fn run<R: Print>(rt: &R, s: &[u8]) {
    let mut at = 0;
    while at < s.len() {
        at = run_at(rt, s, at);
    }
}

// Runs the container, then the long texts.
fn main(rt: HostRuntime) {
    let mut buf = [0u8; 262144];
    let n = load(&rt, b"plans", &mut buf);
    run(&rt, &buf[..n]);
    print_long(&rt, LONGEST_TEXT);
    print_long(&rt, TOO_LONG);
}
