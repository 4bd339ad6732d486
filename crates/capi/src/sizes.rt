// cascade_sizes.

ghost use Rattle.std.specs.Prelude.{◌≡◌};
ghost use Rattle.circuit.specs.Outcome.{outcome_of};
ghost use Rattle.checking.specs.Sizes.{sizes_outcome};
ghost use Rattle.capi.specs.Sizes.{sizes_answer};

use checking::clauses::Totals;
use circuit::refusal::Refusal;

#[repr(C)]
#[derive(Clone, Copy, Debug, PartialEq, Eq)]
pub struct CascadeSizesAnswer {
    pub number: u64,
    pub place: u64,
    pub variables: u64,
    pub clauses: u64,
    pub words: u64,
}

impl From<Result<Totals, Refusal>> for CascadeSizesAnswer {
    ghost from_gives = { λ answer c. c ≡ sizes_answer (outcome_of answer) };

    fn from(answer: Result<Totals, Refusal>) -> CascadeSizesAnswer {
        match answer {
            Ok(t) => CascadeSizesAnswer {
                number: 0,
                place: 0,
                variables: t.variables,
                clauses: t.clauses,
                words: t.words,
            },
            Err(why) => CascadeSizesAnswer {
                number: why.number(),
                place: why.place(),
                variables: 0,
                clauses: 0,
                words: 0,
            },
        }
    }
}

#[unsafe(no_mangle)]
pub extern "C" fn cascade_sizes(lines: u64, words: &[u64]) -> CascadeSizesAnswer
    ensures { result ≡ sizes_answer (sizes_outcome lines words.now) }
{
    checking::clauses::sizes(lines, words).into()
}
