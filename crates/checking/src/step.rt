// The reduction step: two gates that match, with gates between them that the first may pass.

ghost use Rattle.std.specs.Prelude.{◌≡◌, ◌+◌, ◌*◌, ◌/◌, ◌%◌, ◌<◌, ◌≤◌, [], ◌∷◌, ◌++◌, length, take, drop, replicate};
ghost use Rattle.circuit.specs.Outcome.{outcome_of, map_served, Yields};
ghost use Rattle.circuit.specs.Gate.{max_lines};
ghost use Rattle.circuit.specs.Words.{gates_of, gate_at};
ghost use Rattle.checking.specs.Match.{may_pass, match_of, of_matched};
ghost use Rattle.checking.specs.Step.{scan_from, search_from, replaced, filled, step_gates, with_count, step_words, step_outcome, step_buffer, of_stepped, of_step};
ghost use Rattle.checking.specs.private.StepCode.{of_search, from_gate, FoundAt};

use crate::tested::Tested;
use circuit::gate::Gate;
use circuit::refusal::Refusal;

// Which match it was (01: pair, drop, turn).
#[derive(Clone, Copy, Debug, PartialEq, Eq)]
pub enum Kind {
    Cancel,
    RemoveControl,
    InvertControl,
}

// A match, with the gate that remains.
#[derive(Clone, Copy, Debug, PartialEq, Eq)]
pub enum Match {
    Cancel,
    RemoveControl(Gate),
    InvertControl(Gate),
}

// The places of two gates that match, and the match.
#[derive(Clone, Copy, Debug, PartialEq, Eq)]
pub struct Found {
    pub i: usize,
    pub j: usize,
    pub by: Match,
}

// What a step did: the places, which match it was and the number of gates left.
#[derive(Clone, Copy, Debug, PartialEq, Eq)]
pub struct Stepped {
    pub i: usize,
    pub j: usize,
    pub kind: Kind,
    pub gates: usize,
}

// Whether two gates may pass each other: neither's target is a control of the other, or some line is a positive control of one and a negative control of the other.
#[tactic(auto, using(crate::proofs::lemmas::step::Passing::pass_unread, crate::proofs::lemmas::step::Passing::pass_opposed))]
fn may_pass(g: Gate, h: Gate) -> bool
    requires first_target { g.target < max_lines }
    requires second_target { h.target < max_lines }
    ensures { result ≡ may_pass g h }
{
    let g_lines = g.positive | g.negative;
    let g_target = g.target;
    let h_lines = h.positive | h.negative;
    let h_target = h.target;
    let targets_read = (h_lines & circuit::gate::line(g_target))
        | (g_lines & circuit::gate::line(h_target));
    let opposing = (g.positive & h.negative) | (g.negative & h.positive);
    targets_read == 0 || opposing != 0
}

// How two gates match, if they do.
#[tactic(auto, unfolding(crate::specs::Match::match_of, crate::specs::Match::differing, crate::specs::Match::control_removed, crate::specs::Match::control_inverted))]
pub fn match_gates(g: Gate, h: Gate) -> Option<Match>
    ensures { of_matched result ≡ match_of g h }
{
    let target = h.target;
    if g.target != target {
        return None;
    }
    let p = g.positive ^ h.positive;
    let q = g.negative ^ h.negative;
    let d = p | q;
    if d == 0 {
        return Some(Match::Cancel);
    }
    if !d.is_power_of_two() {
        return None;
    }
    let positive = g.positive & h.positive;
    let negative = g.negative & h.negative;
    if p == q {
        let r = Gate {
            positive,
            negative,
            target,
        };
        return Some(Match::RemoveControl(r));
    }
    let r = Gate {
        positive: positive | q,
        negative: negative | p,
        target,
    };
    Some(Match::InvertControl(r))
}

// The first gate after gate i that it matches, where it may pass those between.
fn scan_after(gates: Tested, i: usize) -> Option<Found>
    requires { i < length gates.words.now / 3 }
    ensures { of_search result ≡ from_gate i (scan_from (i + 1) (gate_at gates.entry.words.now i) (gates_of (drop (3 * (i + 1)) gates.entry.words.now))) }
{
    let words = gates.words;
    let g = circuit::words::gate_at(words, i);
    for j in i + 1..words.len() / Gate::WORDS {
        let h = circuit::words::gate_at(words, j);
        if let Some(by) = match_gates(g, h) {
            return Some(Found { i, j, by });
        }
        if !may_pass(g, h) {
            return None;
        }
    }
    None
}

// The lowest i, then the lowest j above it, of two gates that match.
pub(crate) fn search_gates(gates: Tested) -> Option<Found>
    ensures { of_search result ≡ search_from 0 (gates_of gates.entry.words.now) }
{
    for i in 0..gates.words.len() / Gate::WORDS {
        if let Some(found) = scan_after(gates, i) {
            return Some(found);
        }
    }
    None
}

// Moves the words from `to + gap` on down to `to`; those that this frees at the end become 0.
fn close_gap(words: &mut [u64], to: usize, gap: usize)
    requires { to + gap ≤ length words.old }
    ensures { words.new ≡ (take to words.old ++ drop (to + gap) words.old) ++ replicate gap 0 }
{
    let end = words.len() - gap;
    words.copy_within(to + gap.., to);
    words[end..].fill(0);
}

// Gates i and j go. That the words are whole gates stands in the contracts: a struct around lent words would be taken apart before each slice of them.
fn remove_pair(words: &mut [u64], i: usize, j: usize)
    requires rising { i < j }
    requires second_inside { j < length words.old / 3 }
    requires whole_gates { length words.old % 3 ≡ 0 }
    ensures { words.new ≡ filled (replaced i j [] (gates_of words.old)) (length words.old) }
{
    words.copy_within(Gate::WORDS * (i + 1)..Gate::WORDS * j, Gate::WORDS * i);
    close_gap(words, Gate::WORDS * (j - 1), 2 * Gate::WORDS);
}

// Place j takes r, and gate i goes.
fn merge_pair(words: &mut [u64], i: usize, j: usize, r: Gate)
    requires rising { i < j }
    requires second_inside { j < length words.old / 3 }
    requires whole_gates { length words.old % 3 ≡ 0 }
    ensures { words.new ≡ filled (replaced i j (r ∷ []) (gates_of words.old)) (length words.old) }
{
    let at = Gate::WORDS * j;
    circuit::words::put_gate(&mut words[at..], r);
    close_gap(words, Gate::WORDS * i, Gate::WORDS);
}

// Makes the step on the words of gates that the search found in them.
pub(crate) fn make_step(words: &mut [u64], found: Found) -> Stepped
    requires whole_gates { length words.old % 3 ≡ 0 }
    requires found_at { FoundAt words.old found }
    ensures { Yields (of_stepped result) words.new (with_count (step_gates (gates_of words.old))) (step_words (step_gates (gates_of words.old)) words.old) }
{
    let Found { i, j, by } = found;
    let gates = words.len() / Gate::WORDS;
    match by {
        Match::Cancel => {
            remove_pair(words, i, j);
            Stepped {
                i,
                j,
                kind: Kind::Cancel,
                gates: gates - 2,
            }
        }
        Match::RemoveControl(r) => {
            merge_pair(words, i, j, r);
            Stepped {
                i,
                j,
                kind: Kind::RemoveControl,
                gates: gates - 1,
            }
        }
        Match::InvertControl(r) => {
            merge_pair(words, i, j, r);
            Stepped {
                i,
                j,
                kind: Kind::InvertControl,
                gates: gates - 1,
            }
        }
    }
}

// Makes a step on a caller's words; else 2, 11, 6 or 7.
#[tactic(auto, unfolding(crate::specs::Step::step_outcome, crate::specs::Step::step_buffer))]
pub fn step(n: u64, words: &mut [u64]) -> Result<Option<Stepped>, Refusal>
    ensures { Yields (map_served of_step (outcome_of result)) words.new (step_outcome n words.old) (step_buffer n words.old) }
{
    circuit::words::check_cascade(n, words, Gate::MAX_MITER_GATES)?;
    match search_gates(Tested { words }) {
        None => Ok(None),
        Some(found) => Ok(Some(make_step(words, found))),
    }
}
