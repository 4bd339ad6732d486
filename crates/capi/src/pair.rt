// cascade_pair_sizes and cascade_pair_emit.

ghost use Rattle.std.specs.Prelude.{◌≡◌, length};
ghost use Rattle.circuit.specs.Outcome.{Yields};
ghost use Rattle.checking.specs.Pair.{pair_sizes_outcome, pair_emit_outcome, pair_emit_buffer};
ghost use Rattle.capi.specs.Sizes.{sizes_answer};

use crate::sizes::CascadeSizesAnswer;
use circuit::header::Header;

#[unsafe(no_mangle)]
pub extern "C" fn cascade_pair_sizes(
    a_header: Header,
    a: &[u64],
    b_header: Header,
    b: &[u64],
) -> CascadeSizesAnswer
    ensures { result ≡ sizes_answer (pair_sizes_outcome a_header a.now b_header b.now) }
{
    checking::pair::sizes(a_header, a, b_header, b).into()
}

#[unsafe(no_mangle)]
pub extern "C" fn cascade_pair_emit(
    a_header: Header,
    a: &[u64],
    b_header: Header,
    b: &[u64],
    out: &mut [i32],
) -> CascadeSizesAnswer
    ensures { Yields result out.new (sizes_answer (pair_emit_outcome a_header a.now b_header b.now (length out.old))) (pair_emit_buffer a_header a.now b_header b.now out.old) }
{
    checking::pair::emit(a_header, a, b_header, b, out).into()
}
