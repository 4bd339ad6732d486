// cascade_step.

ghost use Rattle.std.specs.Prelude.{◌≡◌, ◌/◌, length};
ghost use Rattle.circuit.specs.Outcome.{Yields};
ghost use Rattle.checking.specs.Step.{step_outcome, step_buffer};
ghost use Rattle.checking.specs.Match.{of_kind, kind_number};
ghost use Rattle.capi.specs.Step.{step_answer};

use checking::step::Kind;
use circuit::gate::Gate;

#[repr(C)]
#[derive(Clone, Copy, Debug, PartialEq, Eq)]
pub struct CascadeStepAnswer {
    pub number: u64,
    pub place: u64,
    pub found: u64,
    pub i: u64,
    pub j: u64,
    pub kind: u64,
    pub gates: u64,
}

// The number of a match in C: 0 pair, 1 drop, 2 turn. A `From` of `Kind` could stand in checking alone, which knows no C.
fn kind_number(kind: Kind) -> u64
    ensures { result ≡ kind_number (of_kind kind) }
{
    match kind {
        Kind::Cancel => 0,
        Kind::RemoveControl => 1,
        Kind::InvertControl => 2,
    }
}

#[unsafe(no_mangle)]
pub extern "C" fn cascade_step(lines: u64, words: &mut [u64]) -> CascadeStepAnswer
    ensures { Yields result words.new (step_answer (length words.old / 3) (step_outcome lines words.old)) (step_buffer lines words.old) }
{
    let before = (words.len() / Gate::WORDS) as u64;
    match checking::step::step(lines, words) {
        Ok(Some(s)) => CascadeStepAnswer {
            number: 0,
            place: 0,
            found: 1,
            i: s.i as u64,
            j: s.j as u64,
            kind: kind_number(s.kind),
            gates: s.gates as u64,
        },
        Ok(None) => CascadeStepAnswer {
            number: 0,
            place: 0,
            found: 0,
            i: 0,
            j: 0,
            kind: 0,
            gates: before,
        },
        Err(why) => CascadeStepAnswer {
            number: why.number(),
            place: why.place(),
            found: 0,
            i: 0,
            j: 0,
            kind: 0,
            gates: before,
        },
    }
}
