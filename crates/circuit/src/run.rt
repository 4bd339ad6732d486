// A cascade on a state.

ghost use Rattle.std.specs.Prelude.{◌≡◌, ◌≤◌};
ghost use Rattle.circuit.specs.Gate.{max_lines, valid, apply};
ghost use Rattle.circuit.specs.Outcome.{outcome_of, served, demand, and_then};
ghost use Rattle.circuit.specs.Refusal.{no_gate};
ghost use Rattle.circuit.specs.Words.{gates_of, valid_from};
ghost use Rattle.circuit.specs.Run.{run, run_tested, run_outcome, records_outcome};

use crate::gate::Gate;
use crate::refusal::Refusal;

// The state after all gates of the words, which were tested.
pub fn run_tested(words: &[u64], state: u64) -> u64
    ensures { result ≡ run_tested (gates_of words.now) state }
{
    let mut s = state;
    for i in 0..words.len() / Gate::WORDS {
        s = crate::words::gate_at(words, i).toggle(s);
    }
    s
}

// The state after a gate, which is tested; else 7.
fn run_gate(n: u64, index: usize, gate: Gate, state: u64) -> Result<u64, Refusal>
    requires { n ≤ max_lines }
    ensures { outcome_of result ≡ demand (valid n gate) no_gate index (served (apply gate state)) }
{
    if !gate.valid(n) {
        return Err(Refusal::NoGate(index as u64));
    }
    Ok(gate.toggle(state))
}

// The state after all gates of the words, which are tested on the way; else 7.
fn run_gates(n: u64, words: &[u64], state: u64) -> Result<u64, Refusal>
    requires { n ≤ max_lines }
    ensures { outcome_of result ≡ and_then (valid_from n 0 (gates_of words.now)) (λ k. served (run (gates_of words.now) state)) }
{
    let mut s = state;
    for i in 0..words.len() / Gate::WORDS {
        s = run_gate(n, i, crate::words::gate_at(words, i), s)?;
    }
    Ok(s)
}

// The state after all gates of a list, which are tested on the way; else 7. One loop over words and lists would speak of what an iterator yields, for a body of one line.
fn run_list(n: u64, gates: &[Gate], state: u64) -> Result<u64, Refusal>
    requires { n ≤ max_lines }
    ensures { outcome_of result ≡ and_then (valid_from n 0 gates.now) (λ k. served (run gates.now state)) }
{
    let mut s = state;
    for (i, gate) in gates.iter().enumerate() {
        s = run_gate(n, i, *gate, s)?;
    }
    Ok(s)
}

// The output state of a cascade; else 2, 11, 6, 7 or 9.
#[tactic(auto, unfolding(crate::specs::Run::run_outcome, crate::specs::Words::check_outcome, crate::specs::Words::gates_outcome))]
pub fn run(n: u64, words: &[u64], state: u64) -> Result<u64, Refusal>
    ensures { outcome_of result ≡ run_outcome n words.now state }
{
    if !crate::words::line_count_good(n) {
        return Err(Refusal::BadLineCount);
    }
    crate::words::check_size(words, Gate::MAX_GATES)?;
    let output = run_gates(n, words, state)?;
    if !crate::gate::below(state, n) {
        return Err(Refusal::BadState(0));
    }
    Ok(output)
}

// The output state of a cascade that is a list of gate records; else 2, 6, 7 or 9.
#[tactic(auto, unfolding(crate::specs::Run::records_outcome))]
pub fn run_records(n: u64, gates: &[Gate], state: u64) -> Result<u64, Refusal>
    ensures { outcome_of result ≡ records_outcome n gates.now state }
{
    if !crate::words::line_count_good(n) {
        return Err(Refusal::BadLineCount);
    }
    if Gate::MAX_GATES < gates.len() {
        return Err(Refusal::TooManyGates(0));
    }
    let output = run_list(n, gates, state)?;
    if !crate::gate::below(state, n) {
        return Err(Refusal::BadState(0));
    }
    Ok(output)
}
