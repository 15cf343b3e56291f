// Tables by number: 0, or one more than the place on the tape of the statement that defines the number.
// Kept: a word for each number and not an Option<usize>, which takes four times the memory of it on the stack.
ghost use Rattle.std.specs.Prelude.{◌≡◌, ◌+◌, ◌≤◌, ◌<◌, length, set};
ghost use Rattle.faults.specs.Limits.{longest_text};
ghost use Rattle.terms.specs.inner.Tables.{place_in};

// What the lines so far define: the tape, and tables of the terms and of the elements on it.
#[derive(Clone, Copy)]
pub struct Known<'a> {
    pub tape: &'a [u32],
    pub terms: &'a [u32],
    pub elements: &'a [u32],
}

// The place of the statement that defines a number, if one does.
pub fn entry(table: &[u32], u: u32) -> Option<usize>
    ensures { result ≡ place_in table.now u }
{
    let e = table.get(u as usize)?;
    (*e as usize).checked_sub(1)
}

// Enters a number, which the statement at q defines.
pub fn enter(table: &mut [u32], u: u32, q: usize)
    requires { (u < length table.old) × (q ≤ longest_text) }
    ensures { table.new ≡ set table.old u (q + 1) }
{
    table[u as usize] = (q + 1) as u32;
}
