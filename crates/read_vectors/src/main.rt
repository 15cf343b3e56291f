// Runs the reader's vectors: prints what reading gives for each text of `texts` and each candidate of `candidates`:
// `refused NUMBER PLACE`, or `read COUNT` and the words of each line, or `candidate COUNT` and the atoms.
#![tactic(auto)]

ghost use Rattle.std.specs.Prelude.{◌≡◌, ◌≤◌, length};
ghost use Rattle.files.specs.inner.Cases.{case_at, next_at};
ghost use Rattle.faults.specs.Limits.{longest_text};

use aspif::candidate::candidate;
use aspif::walk::{Lines, after_at, word_at};
use aspif::words::{KIND, PLACE, SAYS};
use faults::{ATOM_PLACES, LONGEST_TEXT};
use files::container::case_at;
use files::load;
use timetable::count_marked;

// Of a line on the tape: the first of the fields behind its kind.
const FIELDS: usize = 3;

// Prints a line of a tape: its kind, its place, its fields, and a line end.
fn print_line<R: Print>(rt: &R, line: &[u32]) {
    let kind = word_at(line, SAYS, KIND);
    let place = word_at(line, 0, PLACE);
    let _ = print!(rt; "{kind} {place}");
    for field in line.iter().skip(FIELDS) {
        let _ = print!(rt; " {field}");
    }
    let _ = println!(rt);
}

// Prints how many lines a tape has, and each of them.
fn print_lines<R: Print>(rt: &R, lines: Lines) {
    let tape = lines.tape;
    let _ = println!(rt; "read {}", lines.count);
    for p in lines.places() {
        let end = after_at(tape, p);
        print_line(rt, &tape[p..end]);
    }
}

// Reads a text, and prints what that gives.
fn print_text<R: Print>(rt: &R, s: &[u8])
    requires { length s.now ≤ longest_text }
{
    let mut tape = [0u32; LONGEST_TEXT];
    match aspif::read(s, &mut tape) {
        Ok(count) => print_lines(rt, Lines { tape: &tape, count }),
        Err(refusal) => {
            let _ = println!(rt; "{refusal}");
        }
    }
}

// Prints how many atoms a bitmap holds, and each of them.
fn print_atoms<R: Print>(rt: &R, x: &[u8]) {
    let count = count_marked(x, 0);
    let _ = print!(rt; "candidate {count}");
    for (atom, mark) in x.iter().enumerate() {
        if *mark == 1 {
            let _ = print!(rt; " {atom}");
        }
    }
    let _ = println!(rt);
}

// Reads a candidate, and prints what that gives.
#[tactic(auto, using(aspif::proofs::Candidates::blank_zeros))]
fn print_candidate<R: Print>(rt: &R, s: &[u8]) {
    let mut x = [0u8; ATOM_PLACES];
    match candidate(s, &mut x) {
        Ok(_) => print_atoms(rt, &x),
        Err(refusal) => {
            let _ = println!(rt; "{refusal}");
        }
    }
}

// Prints the name of the case at a place of a container and what its bytes give, and answers the place of the next; the end where no whole case stands.
fn run_at<R: Print, F: Fn(&[u8])>(rt: &R, s: &[u8], at: usize, print_case: &F) -> usize
    requires { (case : _) → length case.now ≤ longest_text → F.pre print_case.now case }
    ensures { result ≡ next_at s.now (case_at s.now at) }
{
    let Some(case) = case_at(s, at) else {
        return s.len();
    };
    let _ = rt.write_all(&s[at..case.name]);
    let _ = println!(rt);
    print_case(&s[case.start..case.end]);
    case.end + 1
}

// Runs the cases of a container.
// Kept: `run` and `run_at` here and in `vectors`; each `run_at` has a promise of its own, of which the edits case_skipped and pair_skipped are.
#[tactic(auto, using(files::proofs::Cases::next_further))]
fn run<R: Print, F: Fn(&[u8])>(rt: &R, s: &[u8], print_case: &F)
    requires { (case : _) → length case.now ≤ longest_text → F.pre print_case.now case }
{
    let mut at = 0;
    while at < s.len() {
        at = run_at(rt, s, at, print_case);
    }
}

// Runs both containers.
fn main(rt: HostRuntime) {
    let mut buf = [0u8; 131072];
    let n = load(&rt, b"texts", &mut buf);
    run(&rt, &buf[..n], &|s: &[u8]| print_text(&rt, s));
    let m = load(&rt, b"candidates", &mut buf);
    run(&rt, &buf[..m], &|s: &[u8]| print_candidate(&rt, s));
}
