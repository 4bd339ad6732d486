// cascade_fault_masks.

ghost use Rattle.std.specs.Prelude.{length};
ghost use Rattle.circuit.specs.Outcome.{Yields};
ghost use Rattle.checking.specs.Faults.{fault_outcome, fault_buffer};
ghost use Rattle.capi.specs.Count.{count_answer};

use crate::count::CascadeCountAnswer;
use circuit::header::Header;

#[unsafe(no_mangle)]
pub extern "C" fn cascade_fault_masks(
    a_header: Header,
    suspect: &[u64],
    b_header: Header,
    reference: &[u64],
    states: &[u64],
    out: &mut [u64],
) -> CascadeCountAnswer
    ensures { Yields result out.new (count_answer (fault_outcome a_header suspect.now b_header reference.now states.now (length out.old))) (fault_buffer a_header suspect.now b_header reference.now states.now out.old) }
{
    checking::faults::fault_masks(a_header, suspect, b_header, reference, states, out).into()
}
