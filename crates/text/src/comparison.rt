// Two cascades compared: by the reduction of their miter, by the sweep, or by clauses for a solver.

ghost use Rattle.std.specs.Prelude.{◌≡◌, ◌*◌, ◌^◌, ◌≤◌, length, take};
ghost use Rattle.circuit.specs.Outcome.{outcome_of};
ghost use Rattle.circuit.specs.Words.{gates_of};
ghost use Rattle.checking.specs.Reduce.{reduce_gates};
ghost use Rattle.checking.specs.Compare.{max_sweep_lines, lowest_from};
ghost use Rattle.text.specs.Compare.{max_list, file_words, miter_words, gates_left, alone, swept_as, list_as, compared, comparison};
ghost use Rattle.text.specs.Formula.{formula_of, pair_formula};
ghost use Rattle.text.specs.FileOutcome.{answer_of};
ghost use Rattle.text.specs.private.Comparing.{MiterWords, MiterCascade, LeftIn, listed_as, SaysCompared, SaysAny};

use crate::pair::{CascadeRead, PairRead};
use crate::refused::{File, FileRefusal};
use checking::clauses::{ClauseWord, Totals};
use circuit::gate::Gate;
use circuit::refusal::Refusal;

// Equal, by the reduction or by the sweep; a state on which two cascades differ, and their outputs; or the totals of a clause list that stands in the lent room.
#[derive(Clone, Copy, Debug, PartialEq, Eq)]
pub(crate) enum Compared {
    Reduction,
    Sweep,
    Differ { state: u64, first: u64, second: u64 },
    Clauses(Totals),
}

// Reduces the gates at the room's start; how many are left.
fn reduce_gates(n: u64, gates: usize, room: &mut [u64]) -> usize
    requires { MiterWords n gates room.old }
    ensures { LeftIn n result room.new (reduce_gates (gates_of (take (3 * gates) room.old))).left }
{
    let end = Gate::WORDS * gates;
    match checking::reduce::reduce(n, &mut room[..end]) {
        Ok(reduction) => reduction.gates,
        Err(_) => gates,
    }
}

// The gates that the full reduction of the miter leaves, at the room's start; how many.
fn reduce_miter(pair: PairRead, room: &mut [u64]) -> usize
    requires { miter_words ≤ length room.old }
    ensures { LeftIn pair.entry.first.header.lines result room.new (gates_left (gates_of pair.entry.first.words.now) (gates_of pair.entry.second.words.now)) }
{
    let PairRead { first, second } = pair;
    let (n, m) = (first.header.lines, second.header.lines);
    match checking::miter::miter(n, first.words, m, second.words, room) {
        Ok(gates) => reduce_gates(n, gates, room),
        Err(_) => 0,
    }
}

// Two cascades of at most 16 lines, by the lowest state on which they differ.
fn sweep(pair: PairRead) -> Compared
    requires { pair.first.header.lines ≤ max_sweep_lines }
    ensures { SaysAny result (swept_as (gates_of pair.entry.first.words.now) (gates_of pair.entry.second.words.now) (lowest_from pair.entry.first.header (gates_of pair.entry.first.words.now) (gates_of pair.entry.second.words.now) 0 (2 ^ pair.entry.first.header.lines))) }
{
    let PairRead { first, second } = pair;
    match checking::compare::first_difference(
        first.header,
        first.words,
        second.header,
        second.words,
    ) {
        Ok(Some(state)) => Compared::Differ {
            state,
            first: circuit::run::run_tested(first.words, state),
            second: circuit::run::run_tested(second.words, state),
        },
        Ok(None) => Compared::Sweep,
        // Two cascades of few lines are never refused.
        Err(_) => Compared::Sweep,
    }
}

// The totals of a clause list that was emitted, where it is no longer than one may be; else 10.
fn listed(emitted: Result<Totals, Refusal>) -> Result<Compared, FileRefusal>
    ensures { answer_of result ≡ listed_as (outcome_of emitted) }
{
    let totals = File::Both.of(emitted)?;
    if (crate::MAX_LIST as u64) < totals.words {
        return Err(FileRefusal::both(Refusal::NoRoom));
    }
    Ok(Compared::Clauses(totals))
}

// The clause list of gates; else 10.
fn list_gates(n: u64, words: &[u64], clauses: &mut [ClauseWord]) -> Result<Compared, FileRefusal>
    requires miter_cascade { MiterCascade n words.now }
    requires clause_room { max_list ≤ length clauses.old }
    ensures { SaysCompared result clauses.new (list_as (formula_of n (gates_of words.now))) }
{
    listed(checking::clauses::emit(n, words, clauses))
}

// The gates that the full reduction of a cascade leaves, at the room's start; how many.
fn reduce_alone(cascade: CascadeRead, room: &mut [u64]) -> usize
    requires { file_words ≤ length room.old }
    ensures { LeftIn cascade.entry.header.lines result room.new (alone (gates_of cascade.entry.words.now)) }
{
    let gates = crate::put::put(room, cascade.words) / Gate::WORDS;
    reduce_gates(cascade.header.lines, gates, room)
}

// The clause list of two cascades, each reduced alone in its part of `room`; else 10.
fn list_alone(
    pair: PairRead,
    room: &mut [u64],
    clauses: &mut [ClauseWord],
) -> Result<Compared, FileRefusal>
    requires miter_room { miter_words ≤ length room.old }
    requires clause_room { max_list ≤ length clauses.old }
    ensures { SaysCompared result clauses.new (list_as (pair_formula pair.entry.first.header (alone (gates_of pair.entry.first.words.now)) (alone (gates_of pair.entry.second.words.now)))) }
{
    let PairRead { first, second } = pair;
    let (a, b) = room.split_at_mut(crate::FILE_WORDS);
    let i = Gate::WORDS * reduce_alone(first, a);
    let j = Gate::WORDS * reduce_alone(second, b);
    listed(checking::pair::emit(first.header, &a[..i], second.header, &b[..j], clauses))
}

// Compares two cascades; the miter and what the reduction leaves of it, or of each alone, stand in `room`.
fn compare_pair(
    pair: PairRead,
    room: &mut [u64],
    clauses: &mut [ClauseWord],
) -> Result<Compared, FileRefusal>
    requires miter_room { miter_words ≤ length room.old }
    requires clause_room { max_list ≤ length clauses.old }
    ensures { SaysCompared result clauses.new (compared pair.entry.first.header (gates_of pair.entry.first.words.now) (gates_of pair.entry.second.words.now)) }
{
    let left = reduce_miter(pair, room);
    if left == 0 {
        return Ok(Compared::Reduction);
    }
    let header = pair.first.header;
    if header.lines <= Gate::MAX_SWEEP_LINES {
        return Ok(sweep(pair));
    }
    if header.marked() {
        return list_alone(pair, room, clauses);
    }
    let end = Gate::WORDS * left;
    list_gates(header.lines, &room[..end], clauses)
}

// Compares two files.
#[tactic(auto, unfolding(crate::specs::Compare::comparison))]
pub(crate) fn compare_files(
    first: &[u8],
    second: &[u8],
    a: &mut [u64],
    b: &mut [u64],
    room: &mut [u64],
    clauses: &mut [ClauseWord],
) -> Result<Compared, FileRefusal>
    requires first_room { file_words ≤ length a.old }
    requires second_room { file_words ≤ length b.old }
    requires miter_room { miter_words ≤ length room.old }
    requires clause_room { max_list ≤ length clauses.old }
    ensures { SaysCompared result clauses.new (comparison first.now second.now) }
{
    compare_pair(PairRead::read(first, second, a, b)?, room, clauses)
}
