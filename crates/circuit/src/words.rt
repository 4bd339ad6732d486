// A cascade in memory: three words a gate, and the tests of a caller's words.

ghost use Rattle.std.specs.Prelude.{◌≡◌, ◌≤◌, length};
ghost use Rattle.bits.specs.Lists.{over};
ghost use Rattle.circuit.specs.Outcome.{outcome_of};
ghost use Rattle.circuit.specs.Words.{gates_of, gate_at, gate_words, put_gate, line_count_good, valid_from, size_outcome, gates_outcome, check_outcome, pair_outcome, headed_outcome, headed_pair_outcome};

use crate::gate::Gate;
use crate::header::Header;
use crate::refusal::Refusal;

// The numbers of gates of two cascades.
#[derive(Clone, Copy, Debug, PartialEq, Eq)]
pub struct Counts {
    pub first: usize,
    pub second: usize,
}

// Gate i of the words; three zero words where there is none.
pub fn gate_at(words: &[u64], i: usize) -> Gate
    ensures { result ≡ gate_at words.now i }
{
    if i < words.len() / Gate::WORDS {
        let at = Gate::WORDS * i;
        return Gate {
            positive: words[at],
            negative: words[at + 1],
            target: words[at + 2],
        };
    }
    Gate::not(0)
}

// Writes the gate's words at the buffer's start.
pub(crate) fn store_gate(out: &mut [u64], g: Gate)
    requires { 3 ≤ length out.old }
    ensures { out.new ≡ over (gate_words g) out.old }
{
    out[0] = g.positive;
    out[1] = g.negative;
    out[2] = g.target;
}

// Writes the gate's words at the buffer's start; nothing where they do not fit.
pub fn put_gate(out: &mut [u64], g: Gate)
    ensures { out.new ≡ put_gate g out.old }
{
    if Gate::WORDS <= out.len() {
        store_gate(out, g);
    }
}

// Whether a cascade may have n lines. What is tested stays a number in the functions below and above: a struct whose field says n ≤ 64 would be taken apart at each use, as `lines.n` in code and clauses.
pub fn line_count_good(n: u64) -> bool
    ensures { result ≡ line_count_good n }
{
    1 <= n && n <= Gate::MAX_LINES
}

// The number of gates, at most `limit`, by the number of words; else 11 or 6.
#[tactic(auto, unfolding(crate::specs::Words::size_outcome))]
pub fn check_size(words: &[u64], limit: usize) -> Result<usize, Refusal>
    ensures { outcome_of result ≡ size_outcome words.now limit }
{
    if words.len() % Gate::WORDS != 0 {
        return Err(Refusal::BadWordCount);
    }
    let gates = words.len() / Gate::WORDS;
    if limit < gates {
        return Err(Refusal::TooManyGates(0));
    }
    Ok(gates)
}

// The number of whole gates that the words are on n lines; else 7.
fn check_each(n: u64, words: &[u64]) -> Result<usize, Refusal>
    ensures { outcome_of result ≡ valid_from n 0 (gates_of words.now) }
{
    let gates = words.len() / Gate::WORDS;
    for i in 0..gates {
        if !gate_at(words, i).valid(n) {
            return Err(Refusal::NoGate(i as u64));
        }
    }
    Ok(gates)
}

// The number of gates, at most `limit`, that the words are on n lines; else 11, 6 or 7.
#[tactic(auto, unfolding(crate::specs::Words::gates_outcome))]
pub fn check_gates(n: u64, words: &[u64], limit: usize) -> Result<usize, Refusal>
    ensures { outcome_of result ≡ gates_outcome n words.now limit }
{
    check_size(words, limit)?;
    check_each(n, words)
}

// The number of gates, at most `limit`, of a cascade on n lines; else 2, 11, 6 or 7. Not inlined: a loop of its own takes less time (docs/DECISIONS.md, Speed).
#[inline(never)]
#[tactic(auto, unfolding(crate::specs::Words::check_outcome))]
pub fn check_cascade(n: u64, words: &[u64], limit: usize) -> Result<usize, Refusal>
    ensures { outcome_of result ≡ check_outcome n words.now limit }
{
    if !line_count_good(n) {
        return Err(Refusal::BadLineCount);
    }
    check_gates(n, words, limit)
}

// A caller's cascade is a number and a slice here and in each function that C calls, as C gives them; one that a file held is a struct.
// The numbers of gates of two cascades on as many lines; else what is wrong with the first, with the second, or 8.
#[tactic(auto, unfolding(crate::specs::Words::pair_outcome))]
pub fn check_pair(na: u64, a: &[u64], nb: u64, b: &[u64]) -> Result<Counts, Refusal>
    ensures { outcome_of result ≡ pair_outcome na a.now nb b.now }
{
    let first = check_cascade(na, a, Gate::MAX_GATES)?;
    let second = check_cascade(nb, b, Gate::MAX_GATES)?;
    if na != nb {
        return Err(Refusal::LineCountsDiffer);
    }
    Ok(Counts { first, second })
}

// The number of gates, at most `limit`, of a cascade with this header; else 2, 14, 11, 6 or 7. Not inlined, as above: inlined in it, writing without controls took 1.24 times as long as before.
#[inline(never)]
#[tactic(auto, unfolding(crate::specs::Words::headed_outcome))]
pub fn check_headed(h: Header, words: &[u64], limit: usize) -> Result<usize, Refusal>
    ensures { outcome_of result ≡ headed_outcome h words.now limit }
{
    if !line_count_good(h.lines) {
        return Err(Refusal::BadLineCount);
    }
    if !h.marks_good() {
        return Err(Refusal::BadMark(0));
    }
    check_gates(h.lines, words, limit)
}

// The numbers of gates of two cascades with the same header; else what is wrong with the first, with the second, 8 or 15.
#[tactic(auto, unfolding(crate::specs::Words::headed_pair_outcome))]
pub fn check_headed_pair(ha: Header, a: &[u64], hb: Header, b: &[u64]) -> Result<Counts, Refusal>
    ensures { outcome_of result ≡ headed_pair_outcome ha a.now hb b.now }
{
    let counts = Counts {
        first: check_headed(ha, a, Gate::MAX_GATES)?,
        second: check_headed(hb, b, Gate::MAX_GATES)?,
    };
    if ha.lines != hb.lines {
        return Err(Refusal::LineCountsDiffer);
    }
    if !ha.same_marks(hb) {
        return Err(Refusal::MarksDiffer);
    }
    Ok(counts)
}
