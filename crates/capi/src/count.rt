// The answer of a call that gives a number of gates.

ghost use Rattle.std.specs.Prelude.{◌≡◌};
ghost use Rattle.circuit.specs.Outcome.{outcome_of};
ghost use Rattle.capi.specs.Count.{count_answer};

use circuit::refusal::Refusal;

#[repr(C)]
#[derive(Clone, Copy, Debug, PartialEq, Eq)]
pub struct CascadeCountAnswer {
    pub number: u64,
    pub place: u64,
    pub gates: u64,
}

impl From<Result<usize, Refusal>> for CascadeCountAnswer {
    ghost from_gives = { λ answer c. c ≡ count_answer (outcome_of answer) };

    fn from(answer: Result<usize, Refusal>) -> CascadeCountAnswer {
        match answer {
            Ok(gates) => CascadeCountAnswer {
                number: 0,
                place: 0,
                gates: gates as u64,
            },
            Err(why) => CascadeCountAnswer {
                number: why.number(),
                place: why.place(),
                gates: 0,
            },
        }
    }
}
