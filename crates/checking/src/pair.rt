// The clause list of two cascades with the same header: its sizes, and its emission.

ghost use Rattle.std.specs.Prelude.{◌≡◌, length};
ghost use Rattle.circuit.specs.Gate.{max_gates};
ghost use Rattle.circuit.specs.Outcome.{outcome_of, served, and_then};
ghost use Rattle.circuit.specs.Words.{gates_of, headed_outcome};
ghost use Rattle.checking.specs.Pair.{pair_sizes_outcome};
ghost use Rattle.checking.specs.PairEmit.{PairEmits};
ghost use Rattle.checking.specs.private.Sums.{sums_of, pair_totals, PairSmall};

use crate::clauses::{ClauseWord, Totals};
use crate::sums::Sums;
use circuit::gate::Gate;
use circuit::header::Header;
use circuit::refusal::Refusal;

// The sums over the gates of a cascade with this header; else 2, 14, 11, 6 or 7.
fn headed_sums(h: Header, words: &[u64]) -> Result<Sums, Refusal>
    ensures { outcome_of result ≡ and_then (headed_outcome h words.now max_gates) (λ k. served (sums_of h.lines (gates_of words.now))) }
{
    if !circuit::words::line_count_good(h.lines) {
        return Err(Refusal::BadLineCount);
    }
    if !h.marks_good() {
        return Err(Refusal::BadMark(0));
    }
    circuit::words::check_size(words, Gate::MAX_GATES)?;
    crate::sums::sum_gates(h.lines, words)
}

// The totals of the list of two cascades, by the sums over the gates of each.
fn pair_totals(h: Header, a: Sums, b: Sums) -> Totals
    requires { PairSmall h a b }
    ensures { result ≡ pair_totals h a b }
{
    let constants = circuit::gate::count(h.constants);
    let counted = h.lines - circuit::gate::count(h.junk);
    let hit = circuit::gate::count((a.targets | b.targets) & !h.junk);
    let gates = Totals {
        variables: a.totals.variables + b.totals.variables,
        clauses: a.totals.clauses + b.totals.clauses,
        words: a.totals.words + b.totals.words,
    };
    crate::sums::list_totals(h.lines, constants, counted, hit, gates)
}

// The sizes of the clause list of a pair; else 2, 14, 11, 6, 7 of either, 8 or 15.
pub fn sizes(ha: Header, a: &[u64], hb: Header, b: &[u64]) -> Result<Totals, Refusal>
    ensures { outcome_of result ≡ pair_sizes_outcome ha a.now hb b.now }
{
    let first = headed_sums(ha, a)?;
    let second = headed_sums(hb, b)?;
    if ha.lines != hb.lines {
        return Err(Refusal::LineCountsDiffer);
    }
    if !ha.same_marks(hb) {
        return Err(Refusal::MarksDiffer);
    }
    Ok(pair_totals(ha, first, second))
}

// The stored clauses of a pair at the buffer's start, and their totals; else 2, 14, 11, 6, 7 of either, 8, 15 or 10.
pub fn emit(
    ha: Header,
    a: &[u64],
    hb: Header,
    b: &[u64],
    out: &mut [ClauseWord],
) -> Result<Totals, Refusal>
    ensures { PairEmits ha a.now hb b.now out.old (outcome_of result) out.new }
{
    let totals = sizes(ha, a, hb, b)?;
    if (out.len() as u64) < totals.words {
        return Err(Refusal::NoRoom);
    }
    crate::emission::put_list(ha, a, b, out);
    Ok(totals)
}
