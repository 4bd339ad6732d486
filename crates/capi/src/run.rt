// cascade_run and cascade_run_records.

ghost use Rattle.std.specs.Prelude.{◌≡◌};
ghost use Rattle.circuit.specs.Outcome.{outcome_of};
ghost use Rattle.circuit.specs.Run.{run_outcome, records_outcome};
ghost use Rattle.capi.specs.Run.{run_answer};

use circuit::gate::Gate;
use circuit::refusal::Refusal;

#[repr(C)]
#[derive(Clone, Copy, Debug, PartialEq, Eq)]
pub struct CascadeRunAnswer {
    pub number: u64,
    pub place: u64,
    pub state: u64,
}

impl From<Result<u64, Refusal>> for CascadeRunAnswer {
    ghost from_gives = { λ answer c. c ≡ run_answer (outcome_of answer) };

    fn from(answer: Result<u64, Refusal>) -> CascadeRunAnswer {
        match answer {
            Ok(output) => CascadeRunAnswer {
                number: 0,
                place: 0,
                state: output,
            },
            Err(why) => CascadeRunAnswer {
                number: why.number(),
                place: why.place(),
                state: 0,
            },
        }
    }
}

#[unsafe(no_mangle)]
pub extern "C" fn cascade_run(lines: u64, words: &[u64], state: u64) -> CascadeRunAnswer
    ensures { result ≡ run_answer (run_outcome lines words.now state) }
{
    circuit::run::run(lines, words, state).into()
}

#[unsafe(no_mangle)]
pub extern "C" fn cascade_run_records(lines: u64, gates: &[Gate], state: u64) -> CascadeRunAnswer
    ensures { result ≡ run_answer (records_outcome lines gates.now state) }
{
    circuit::run::run_records(lines, gates, state).into()
}
