// The whole way from two cascades to clauses: the miter, a list of calls on it, and the emission.

ghost use Rattle.std.specs.Prelude.{◌≡◌, ◌*◌, ◌≤◌, length};
ghost use Rattle.circuit.specs.Outcome.{outcome_of, Yields};
ghost use Rattle.checking.specs.Check.{call_of, calls_of, called, called_all, Checks};

use crate::clauses::{ClauseWord, Totals};
use circuit::gate::Gate;
use circuit::refusal::Refusal;

// A call on the gates that stand, with the number of lines that it is given.
#[derive(Clone, Copy, Debug, PartialEq, Eq)]
pub enum Call {
    // A step.
    StepOn(u64),
    // A full reduction.
    ReduceOn(u64),
}

impl Call {
    // The call of two words.
    fn of(kind: u64, n: u64) -> Call
        ensures { result ≡ call_of kind n }
    {
        if kind == 0 {
            return Call::StepOn(n);
        }
        Call::ReduceOn(n)
    }
}

// Makes a call on the gates that stand at the buffer's start; how many gates then stand.
fn make_call(call: Call, gates: usize, words: &mut [u64]) -> usize
    requires { 3 * gates ≤ length words.old }
    ensures { Yields result words.new (called call (record { gates = gates; words = words.old })).gates (called call (record { gates = gates; words = words.old })).words }
{
    let end = Gate::WORDS * gates;
    match call {
        Call::StepOn(n) => match crate::step::step(n, &mut words[..end]) {
            Ok(Some(stepped)) => stepped.gates,
            Ok(None) => gates,
            Err(_) => gates,
        },
        Call::ReduceOn(n) => match crate::reduce::reduce(n, &mut words[..end]) {
            Ok(reduction) => reduction.gates,
            Err(_) => gates,
        },
    }
}

// Makes the calls on the gates that stand at the buffer's start; how many gates then stand.
fn make_calls(calls: &[Call], gates: usize, words: &mut [u64]) -> usize
    requires { 3 * gates ≤ length words.old }
    ensures { Yields result words.new (called_all calls.now (record { gates = gates; words = words.old })).gates (called_all calls.now (record { gates = gates; words = words.old })).words }
{
    let mut left = gates;
    for call in calls {
        left = make_call(*call, left, words);
    }
    left
}

// Makes the calls of a list of words on the gates that stand at the buffer's start; how many gates then stand.
fn make_words(calls: &[u64], gates: usize, words: &mut [u64]) -> usize
    requires { 3 * gates ≤ length words.old }
    ensures { Yields result words.new (called_all (calls_of calls.now) (record { gates = gates; words = words.old })).gates (called_all (calls_of calls.now) (record { gates = gates; words = words.old })).words }
{
    let mut left = gates;
    for i in 0..calls.len() / 2 {
        left = make_call(Call::of(calls[2 * i], calls[2 * i + 1]), left, words);
    }
    left
}

// The sizes of the clauses that tell whether two cascades differ: those of their miter after the calls, which stand at the start of `out`.
// The miter and what the calls left of it stand in `work`. Else what is wrong with the miter, or with the emission.
// Two words are a call: 0 for a step, any other word for a full reduction, then its n. A last word alone is no call.
pub fn check(
    na: u64,
    a: &[u64],
    nb: u64,
    b: &[u64],
    calls: &[u64],
    work: &mut [u64],
    out: &mut [ClauseWord],
) -> Result<Totals, Refusal>
    ensures { Checks na a.now nb b.now (calls_of calls.now) work.old out.old (outcome_of result) work.new out.new }
{
    let gates = crate::miter::miter(na, a, nb, b, work)?;
    let left = make_words(calls, gates, work);
    crate::clauses::emit(na, &work[..Gate::WORDS * left], out)
}

// The same, with the calls as a list of `Call`.
pub fn check_calls(
    na: u64,
    a: &[u64],
    nb: u64,
    b: &[u64],
    calls: &[Call],
    work: &mut [u64],
    out: &mut [ClauseWord],
) -> Result<Totals, Refusal>
    ensures { Checks na a.now nb b.now calls.now work.old out.old (outcome_of result) work.new out.new }
{
    let gates = crate::miter::miter(na, a, nb, b, work)?;
    let standing = make_calls(calls, gates, work);
    crate::clauses::emit(na, &work[..Gate::WORDS * standing], out)
}
