// Runs of rows over lists of gate records: a line for each, with the state or the refusal's number and place.
#![tactic(auto)]

ghost use Rattle.std.specs.Prelude.{◌≡◌, ◌≤◌, length, take};
ghost use Rattle.circuit.specs.Outcome.{outcome_of};
ghost use Rattle.circuit.specs.Run.{records_outcome};

use circuit::gate::Gate;
use circuit::refusal::Refusal;

// Runs the first `count` gates.
fn run_first(n: u64, gates: &[Gate], count: usize, state: u64) -> Result<u64, Refusal>
    requires { count ≤ length gates.now }
    ensures { outcome_of result ≡ records_outcome n (take count gates.now) state }
{
    circuit::run::run_records(n, &gates[..count], state)
}

fn print_run(rt: &impl Print, n: u64, gates: &[Gate], count: usize, state: u64)
    requires { count ≤ length gates.now }
{
    match run_first(n, gates, count, state) {
        Ok(output) => rows::print_row(rt, b"state ", &[state, output]),
        Err(why) => rows::print_row(rt, b"refused ", &[why.number(), why.place()]),
    }
}

fn gate(positive: u64, negative: u64, target: u64) -> Gate {
    Gate {
        positive,
        negative,
        target,
    }
}

fn main(rt: HostRuntime) {
    let mut gates = [Gate::not(0); 16385];
    // Document 01: t2+0+1, t2+0-1, t0.
    gates[0] = gate(3, 0, 2);
    print_run(&rt, 3, &gates, 1, 3);
    print_run(&rt, 3, &gates, 1, 1);
    gates[0] = gate(1, 2, 2);
    print_run(&rt, 3, &gates, 1, 1);
    print_run(&rt, 3, &gates, 1, 3);
    gates[0] = Gate::not(0);
    print_run(&rt, 1, &gates, 1, 0);
    // The empty list; on 64 lines t62+63-0.
    print_run(&rt, 64, &gates, 0, 18446744073709551615);
    gates[0] = gate(9223372036854775808, 1, 62);
    print_run(&rt, 64, &gates, 1, 18446744073709551614);
    // The first gate acts first: t1+0 t0, and then t2+1.
    gates[0] = gate(1, 0, 1);
    gates[2] = gate(2, 0, 2);
    print_run(&rt, 3, &gates, 2, 1);
    print_run(&rt, 3, &gates, 3, 1);
    // Refusals 2; 7 at the third gate of two lines, before 9; 9.
    print_run(&rt, 0, &gates, 2, 0);
    print_run(&rt, 65, &gates, 2, 0);
    print_run(&rt, 2, &gates, 3, 9);
    print_run(&rt, 2, &gates, 2, 4);
    // NOT on line 0, 16,384 and 16,383 times; 6 at 16,385, before 7.
    gates[0] = Gate::not(0);
    gates[2] = Gate::not(0);
    print_run(&rt, 1, &gates, 16384, 0);
    print_run(&rt, 1, &gates, 16383, 0);
    gates[0] = gate(0, 0, 1);
    print_run(&rt, 1, &gates, 16385, 0);
}
