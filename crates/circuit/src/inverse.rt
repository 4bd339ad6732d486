// The inverse of a cascade: its gates in reverse order.

ghost use Rattle.std.specs.Prelude.{◌≡◌, length};
ghost use Rattle.circuit.specs.Outcome.{outcome_of, Yields};
ghost use Rattle.circuit.specs.Inverse.{put_inverse, inverse_outcome, inverse_buffer};

use crate::gate::Gate;
use crate::refusal::Refusal;

// Writes the whole gates of the words in reverse order at the buffer's start; nothing where they do not fit.
pub fn put_inverse(words: &[u64], out: &mut [u64])
    ensures { out.new ≡ put_inverse words.now out.old }
{
    let mut j = words.len() / Gate::WORDS;
    if out.len() / Gate::WORDS < j {
        return;
    }
    let mut at = 0;
    // A while: with `for` the inverse of 1,024 gates took 1.37 to 1.44 times as long as plain Rust, so 1.06 to 1.19, and at most 1.2 is asked.
    while 0 < j {
        j -= 1;
        crate::words::store_gate(&mut out[at..], crate::words::gate_at(words, j));
        at += Gate::WORDS;
    }
}

// The number of gates of the inverse, which stands at the buffer's start; else 2, 11, 6, 7 or 10.
#[tactic(auto, unfolding(crate::specs::Inverse::inverse_outcome, crate::specs::Inverse::inverse_buffer))]
pub fn inverse(n: u64, words: &[u64], out: &mut [u64]) -> Result<usize, Refusal>
    ensures { Yields (outcome_of result) out.new (inverse_outcome n words.now (length out.old)) (inverse_buffer n words.now out.old) }
{
    let gates = crate::words::check_cascade(n, words, Gate::MAX_GATES)?;
    if out.len() < words.len() {
        return Err(Refusal::NoRoom);
    }
    put_inverse(words, out);
    Ok(gates)
}
