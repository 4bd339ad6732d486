// cascade_miter.

ghost use Rattle.std.specs.Prelude.{length};
ghost use Rattle.circuit.specs.Outcome.{Yields};
ghost use Rattle.checking.specs.Miter.{miter_outcome, miter_buffer};
ghost use Rattle.capi.specs.Count.{count_answer};

use crate::count::CascadeCountAnswer;

#[unsafe(no_mangle)]
pub extern "C" fn cascade_miter(
    na: u64,
    a: &[u64],
    nb: u64,
    b: &[u64],
    out: &mut [u64],
) -> CascadeCountAnswer
    ensures { Yields result out.new (count_answer (miter_outcome na a.now nb b.now (length out.old))) (miter_buffer na a.now nb b.now out.old) }
{
    checking::miter::miter(na, a, nb, b, out).into()
}
