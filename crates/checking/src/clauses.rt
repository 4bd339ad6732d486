// The clause list of a cascade: its sizes, and its emission.

ghost use Rattle.std.specs.Prelude.{◌≡◌, length};
ghost use Rattle.circuit.specs.Outcome.{outcome_of, Yields};
ghost use Rattle.checking.specs.Sizes.{sizes_outcome};
ghost use Rattle.checking.specs.Emit.{emit_outcome, emit_buffer};

use circuit::gate::Gate;
use circuit::header::Header;
use circuit::refusal::Refusal;

// A word of a clause list: a kind, a count or a literal. Its width is `word_width` (Stored).
pub type ClauseWord = i32;

// The variables, clauses and words of a clause list.
#[derive(Clone, Copy, Debug, PartialEq, Eq)]
pub struct Totals {
    pub variables: u64,
    pub clauses: u64,
    pub words: u64,
}

// The totals of the clause list of a cascade; else 2, 11, 6 or 7.
#[tactic(auto, unfolding(crate::specs::Sizes::sizes_outcome))]
fn cascade_totals(n: u64, words: &[u64]) -> Result<Totals, Refusal>
    ensures { outcome_of result ≡ sizes_outcome n words.now }
{
    if !circuit::words::line_count_good(n) {
        return Err(Refusal::BadLineCount);
    }
    circuit::words::check_size(words, Gate::MAX_MITER_GATES)?;
    let sums = crate::sums::sum_gates(n, words)?;
    let hit = circuit::gate::count(sums.targets);
    Ok(crate::sums::list_totals(n, 0, n, hit, sums.totals))
}

// The sizes of the clause list of a cascade; else 2, 11, 6 or 7.
pub fn sizes(n: u64, words: &[u64]) -> Result<Totals, Refusal>
    ensures { outcome_of result ≡ sizes_outcome n words.now }
{
    cascade_totals(n, words)
}

// The stored clauses of a cascade at the buffer's start, and their totals; else 2, 11, 6, 7 or 10.
#[tactic(auto, unfolding(crate::specs::Emit::emit_outcome, crate::specs::Emit::emit_buffer))]
pub fn emit(n: u64, words: &[u64], out: &mut [ClauseWord]) -> Result<Totals, Refusal>
    ensures { Yields (outcome_of result) out.new (emit_outcome n words.now (length out.old)) (emit_buffer n words.now out.old) }
{
    let totals = cascade_totals(n, words)?;
    if (out.len() as u64) < totals.words {
        return Err(Refusal::NoRoom);
    }
    // Its list is that of a pair without marks whose second cascade has no gates.
    crate::emission::put_list(Header::unmarked(n), words, &[], out);
    Ok(totals)
}
