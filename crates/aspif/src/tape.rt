// Single words of the tape, and how a statement and a line begin on it.
ghost use Rattle.std.specs.Prelude.{◌≡◌, ◌+◌, ◌-◌, ◌≤◌, ◌<◌, [], ◌∷◌, length, set};
ghost use Rattle.std.proofs.lemmas.List.Edits.{sets};

use crate::words::{SAYS, SIZE};

// Stores a word, and gives the place after it.
pub fn put(tape: &mut [u32], out: usize, w: u32) -> usize
    requires { out < length tape.old }
    ensures { (tape.new ≡ sets tape.old out (w ∷ [])) × (result ≡ out + 1) }
{
    tape[out] = w;
    out + 1
}

// Stores a kind and the first number behind it, and gives the place after them.
pub fn begin(tape: &mut [u32], out: usize, kind: u32, w: u32) -> usize
    requires { out + 2 ≤ length tape.old }
    ensures { (tape.new ≡ sets tape.old out (kind ∷ w ∷ [])) × (result ≡ out + 2) }
{
    let o = put(tape, out, kind);
    put(tape, o, w)
}

// Stores the place of the line at out and the count of the words behind these two, which end at `end`.
pub fn head_line(tape: &mut [u32], out: usize, place: usize, end: usize)
    requires { (out + 2 ≤ end) × (end ≤ length tape.old) × (place < 4294967296) × (end < 4294967296) }
    ensures { tape.new ≡ set (set tape.old out place) (out + 1) (end - (out + 2)) }
{
    tape[out] = place as u32;
    tape[out + SIZE] = (end - (out + SAYS)) as u32;
}
