// What gates add to the totals of a clause list, and the totals of a whole list.

ghost use Rattle.std.specs.Prelude.{◌≡◌, ◌+◌, ◌/◌, ◌≤◌, length};
ghost use Rattle.circuit.specs.Gate.{max_lines, max_miter_gates};
ghost use Rattle.circuit.specs.Outcome.{outcome_of, served, and_then};
ghost use Rattle.circuit.specs.Words.{gates_of, valid_from};
ghost use Rattle.checking.specs.Sizes.{gate_sizes};
ghost use Rattle.checking.specs.private.Sums.{sums_of, list_totals, Few};

use crate::clauses::Totals;
use circuit::gate::Gate;
use circuit::refusal::Refusal;

// What gates add to the totals, and the mask of the lines that they target.
#[derive(Clone, Copy)]
pub(crate) struct Sums {
    pub totals: Totals,
    pub targets: u64,
}

// The variables of a gate with k controls, less one.
fn extra_variables(k: u64) -> u64
    ensures { result + 1 ≡ (gate_sizes k).variables }
{
    (2 <= k) as u64
}

// The clauses of a gate with k controls, less one a variable.
fn extra_clauses(k: u64) -> u64
    ensures { result + (gate_sizes k).variables ≡ (gate_sizes k).clauses }
{
    if k < 2 {
        return 0;
    }
    k
}

// The sums over the gates, which are tested on the way; else 7.
pub(crate) fn sum_gates(n: u64, words: &[u64]) -> Result<Sums, Refusal>
    requires few_lines { n ≤ max_lines }
    requires few_gates { length words.now / 3 ≤ max_miter_gates }
    ensures { outcome_of result ≡ and_then (valid_from n 0 (gates_of words.now)) (λ k. served (sums_of n (gates_of words.now))) }
{
    let gates = words.len() / Gate::WORDS;
    let mut variables = 0;
    let mut clauses = 0;
    let mut controls = 0;
    let mut hit = 0;
    for i in 0..gates {
        let g = circuit::words::gate_at(words, i);
        if !g.valid(n) {
            return Err(Refusal::NoGate(i as u64));
        }
        let target = g.target;
        let k = g.control_count();
        variables += extra_variables(k);
        clauses += extra_clauses(k);
        controls += k;
        hit |= circuit::gate::line(target);
    }
    let gate_variables = gates as u64 + variables;
    let gate_clauses = gate_variables + clauses;
    Ok(Sums {
        totals: Totals {
            variables: gate_variables,
            clauses: gate_clauses,
            words: 4 * gate_clauses + controls,
        },
        targets: hit,
    })
}

// The totals of a list on n lines: of its constants, its gates, the lines that count, of which gates target `hit`, and the last OR.
pub(crate) fn list_totals(n: u64, constants: u64, counted: u64, hit: u64, gates: Totals) -> Totals
    requires { Few n constants counted hit gates }
    ensures { result ≡ list_totals n constants counted hit gates }
{
    Totals {
        variables: n + gates.variables + counted,
        clauses: constants + gates.clauses + counted + 1,
        words: 3 * constants + gates.words + 4 * counted + 2 * hit + 2,
    }
}
