// The identity miter: one cascade, then the other's gates in reverse order.

ghost use Rattle.std.specs.Prelude.{length};
ghost use Rattle.circuit.specs.Outcome.{outcome_of, Yields};
ghost use Rattle.checking.specs.Miter.{miter_outcome, miter_buffer};

use circuit::refusal::Refusal;

// The number of gates of the miter, which stands at the buffer's start; else 2, 11, 6, 7 of either, 8 or 10.
#[tactic(auto, unfolding(crate::specs::Miter::miter_outcome, crate::specs::Miter::miter_buffer))]
pub fn miter(na: u64, a: &[u64], nb: u64, b: &[u64], out: &mut [u64]) -> Result<usize, Refusal>
    ensures { Yields (outcome_of result) out.new (miter_outcome na a.now nb b.now (length out.old)) (miter_buffer na a.now nb b.now out.old) }
{
    let counts = circuit::words::check_pair(na, a, nb, b)?;
    if out.len() < a.len() + b.len() {
        return Err(Refusal::NoRoom);
    }
    let at = crate::put::put(out, a);
    circuit::inverse::put_inverse(b, &mut out[at..]);
    Ok(counts.first + counts.second)
}
