// cascade_emit.

ghost use Rattle.std.specs.Prelude.{length};
ghost use Rattle.circuit.specs.Outcome.{Yields};
ghost use Rattle.checking.specs.Emit.{emit_outcome, emit_buffer};
ghost use Rattle.capi.specs.Sizes.{sizes_answer};

use crate::sizes::CascadeSizesAnswer;

#[unsafe(no_mangle)]
pub extern "C" fn cascade_emit(lines: u64, words: &[u64], out: &mut [i32]) -> CascadeSizesAnswer
    ensures { Yields result out.new (sizes_answer (emit_outcome lines words.now (length out.old))) (emit_buffer lines words.now out.old) }
{
    checking::clauses::emit(lines, words, out).into()
}
