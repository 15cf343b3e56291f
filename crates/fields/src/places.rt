// Where the fields of a line stand.
#![tactic(auto, using(crate::proofs::Fieldwise::places), unfolding(crate::specs::Fields::byte_at))]

ghost use Rattle.std.specs.Prelude.{◌≡◌};
ghost use Rattle.fields.specs.Fields.{behind_space, field_place};

use crate::SPACE;

// The place behind the first space at `at` or after it; the text's end if there is none.
fn behind_space(s: &[u8], at: usize) -> usize
    ensures { result ≡ behind_space s.now at }
{
    for i in at..s.len() {
        if s[i] == SPACE {
            return i + 1;
        }
    }
    s.len()
}

// The place of field k, where field 0 stands at `at`.
pub fn field_place(s: &[u8], k: usize, at: usize) -> usize
    ensures { result ≡ field_place s.now k at }
{
    let mut place = at;
    for _ in 0..k {
        place = behind_space(s, place);
    }
    place
}
