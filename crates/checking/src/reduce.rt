// The full reduction: steps until none.

ghost use Rattle.std.specs.Prelude.{◌≡◌, ◌%◌, true, length};
ghost use Rattle.circuit.specs.Outcome.{outcome_of, map_served, Yields};
ghost use Rattle.circuit.specs.Words.{gates_of, all_valid};
ghost use Rattle.checking.specs.Step.{filled};
ghost use Rattle.checking.specs.Reduce.{reduce_gates, numbered, reduce_outcome, reduce_buffer, of_reduction};
ghost use Rattle.circuit.specs.Gate.{max_lines};

use crate::step::Kind;
use crate::tested::Tested;
use circuit::gate::Gate;
use circuit::refusal::Refusal;

// The gates left, the pairs and the merges (drops and turns).
#[derive(Clone, Copy, Debug, PartialEq, Eq)]
pub struct Reduction {
    pub gates: usize,
    pub pairs: usize,
    pub merges: usize,
}

// Makes steps on the words of gates until there is none. The words are lent to be changed, so a `Tested` of them is made for each search alone.
fn reduce_gates(words: &mut [u64]) -> Reduction
    requires whole_gates { length words.old % 3 ≡ 0 }
    requires valid_gates { all_valid max_lines (gates_of words.old) ≡ true }
    ensures { Yields (of_reduction result) words.new (numbered (reduce_gates (gates_of words.old))) (filled (reduce_gates (gates_of words.old)).left (length words.old)) }
{
    let mut gates = words.len() / Gate::WORDS;
    let mut pairs = 0;
    let mut merges = 0;
    while let Some(found) = crate::step::search_gates(Tested {
        words: &words[..Gate::WORDS * gates],
    }) {
        let s = crate::step::make_step(&mut words[..Gate::WORDS * gates], found);
        gates = s.gates;
        match s.kind {
            Kind::Cancel => pairs += 1,
            Kind::RemoveControl | Kind::InvertControl => merges += 1,
        }
    }
    Reduction {
        gates,
        pairs,
        merges,
    }
}

// Reduces a caller's words; else 2, 11, 6 or 7.
#[tactic(auto, unfolding(crate::specs::Reduce::reduce_outcome, crate::specs::Reduce::reduce_buffer))]
pub fn reduce(n: u64, words: &mut [u64]) -> Result<Reduction, Refusal>
    ensures { Yields (map_served of_reduction (outcome_of result)) words.new (reduce_outcome n words.old) (reduce_buffer n words.old) }
{
    circuit::words::check_cascade(n, words, Gate::MAX_MITER_GATES)?;
    Ok(reduce_gates(words))
}
