// cascade_inverse.

ghost use Rattle.std.specs.Prelude.{length};
ghost use Rattle.circuit.specs.Outcome.{Yields};
ghost use Rattle.circuit.specs.Inverse.{inverse_outcome, inverse_buffer};
ghost use Rattle.capi.specs.Count.{count_answer};

use crate::count::CascadeCountAnswer;

#[unsafe(no_mangle)]
pub extern "C" fn cascade_inverse(lines: u64, words: &[u64], out: &mut [u64]) -> CascadeCountAnswer
    ensures { Yields result out.new (count_answer (inverse_outcome lines words.now (length out.old))) (inverse_buffer lines words.now out.old) }
{
    circuit::inverse::inverse(lines, words, out).into()
}
