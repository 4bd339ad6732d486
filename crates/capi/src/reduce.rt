// cascade_reduce.

ghost use Rattle.std.specs.Prelude.{◌/◌, length};
ghost use Rattle.circuit.specs.Outcome.{Yields};
ghost use Rattle.checking.specs.Reduce.{reduce_outcome, reduce_buffer};
ghost use Rattle.capi.specs.Reduce.{reduce_answer};

use circuit::gate::Gate;

#[repr(C)]
#[derive(Clone, Copy, Debug, PartialEq, Eq)]
pub struct CascadeReduceAnswer {
    pub number: u64,
    pub place: u64,
    pub gates: u64,
    pub pairs: u64,
    pub merges: u64,
}

#[unsafe(no_mangle)]
pub extern "C" fn cascade_reduce(lines: u64, words: &mut [u64]) -> CascadeReduceAnswer
    ensures { Yields result words.new (reduce_answer (length words.old / 3) (reduce_outcome lines words.old)) (reduce_buffer lines words.old) }
{
    let before = (words.len() / Gate::WORDS) as u64;
    match checking::reduce::reduce(lines, words) {
        Ok(r) => CascadeReduceAnswer {
            number: 0,
            place: 0,
            gates: r.gates as u64,
            pairs: r.pairs as u64,
            merges: r.merges as u64,
        },
        Err(why) => CascadeReduceAnswer {
            number: why.number(),
            place: why.place(),
            gates: before,
            pairs: 0,
            merges: 0,
        },
    }
}
