// Judges the plan of `plan.aspif` with the candidate of `plan.cand`, and prints the verdict.
#![tactic(auto)]

ghost use Rattle.io.specs.Counts.{IsPrefixLen};

use files::load;
use std::rt::Files;

// How many bytes of a file are read: what stands behind these changes nothing (law fronts_enough in
// judge/proofs/Fronts.antt).
const FRONT: usize = 65536;

// Prints bytes; if they can't be written, says so on standard error.
fn print<R: Print + Eprint>(rt: &R, s: &[u8]) {
    if rt.write_all(s).is_err() {
        let _ = eprintln!(rt; "plan_judge: can't write the verdict");
    }
}

// Judges a text and a candidate, and prints the verdict.
fn judge_and_print<R: Print + Eprint>(rt: &R, text: &[u8], cand: &[u8]) {
    let mut out = io::large_buffer();
    let n = report::judged(text, cand, &mut out);
    print(rt, &out[..n]);
}

// Reads the front of a file, and gives its length.
fn read_front<R: Files>(rt: &R, path: &[u8], front: &mut [u8; FRONT]) -> usize
    ensures { IsPrefixLen result front.new }
{
    load(rt, path, front)
}

// Reads both files, judges, and prints.
fn main(rt: HostRuntime) {
    let mut text = [0u8; FRONT];
    let mut cand = [0u8; FRONT];
    let n = read_front(&rt, b"plan.aspif", &mut text);
    let m = read_front(&rt, b"plan.cand", &mut cand);
    judge_and_print(&rt, &text[..n], &cand[..m]);
}
