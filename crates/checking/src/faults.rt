// Faults: for each gate of a suspect the lines that may be a missing control.

ghost use Rattle.std.specs.Prelude.{◌≡◌, ◌-◌, ◌*◌, ◌/◌, ◌^◌, ◌≤◌, true, not, [], length, position};
ghost use Rattle.bits.specs.Lists.{over};
ghost use Rattle.circuit.specs.Gate.{max_lines, valid};
ghost use Rattle.circuit.specs.Header.{permits};
ghost use Rattle.circuit.specs.Outcome.{outcome_of, Yields};
ghost use Rattle.circuit.specs.Words.{gates_of, all_valid};
ghost use Rattle.checking.specs.Compare.{outputs_differ};
ghost use Rattle.checking.specs.Faults.{is_free, missing_control, gate_masks, mask_where, masks_from, fault_check, fault_outcome, fault_buffer};
ghost use Rattle.checking.specs.private.Narrowing.{kept, narrowed, narrowed_by};

use crate::tested::Tested;
use circuit::gate::Gate;
use circuit::header::Header;
use circuit::refusal::Refusal;

// The masks of a gate: of a missing positive control, then of a missing negative one.
const MASKS: usize = 2;

// The lines below n.
pub(crate) fn lines_below(n: u64) -> u64
    requires { n ≤ max_lines }
    ensures { result ≡ 2 ^ n - 1 }
{
    if n < Gate::MAX_LINES {
        return circuit::gate::line(n) - 1;
    }
    u64::MAX
}

// The lines below n that are neither target nor control.
fn free_lines(g: Gate, n: u64) -> u64
    requires few_lines { n ≤ max_lines }
    requires valid_gate { valid n g ≡ true }
    ensures { result ≡ mask_where n (is_free g) }
{
    let positive = g.positive;
    let negative = g.negative;
    let target = g.target;
    let used = positive | negative | circuit::gate::line(target);
    lines_below(n) & !used
}

// The lines that a state leaves in the mask of missing positive or negative controls. With a flag, as two functions would differ in one test alone.
fn kept_lines(g: Gate, state: u64, positive: bool) -> u64
    requires { valid max_lines g ≡ true }
    ensures { result ≡ kept (missing_control positive) g state }
{
    if g.missed(state) != 0 {
        return 0;
    }
    if !positive {
        return state;
    }
    !state
}

// The masks before any state: the free lines of each gate, in each of its masks.
fn start_masks(n: u64, words: &[u64], out: &mut [u64])
    requires few_lines { n ≤ max_lines }
    requires valid_gates { all_valid n (gates_of words.now) ≡ true }
    requires mask_room { gate_masks * (length words.now / 3) ≤ length out.old }
    ensures { out.new ≡ over (masks_from n [] (gates_of words.now) []) out.old }
{
    for i in 0..words.len() / Gate::WORDS {
        let free = free_lines(circuit::words::gate_at(words, i), n);
        let at = MASKS * i;
        out[at] = free;
        out[at + 1] = free;
    }
}

// The masks after one state more.
fn narrow(gates: Tested, state: u64, out: &mut [u64])
    requires { gate_masks * (length gates.words.now / 3) ≤ length out.old }
    ensures { out.new ≡ narrowed (gates_of gates.entry.words.now) state out.old }
{
    let words = gates.words;
    let mut s = state;
    for i in 0..words.len() / Gate::WORDS {
        let g = circuit::words::gate_at(words, i);
        let at = MASKS * i;
        out[at] &= kept_lines(g, s, true);
        out[at + 1] &= kept_lines(g, s, false);
        s = g.toggle(s);
    }
}

// The masks after all states.
fn narrow_all(gates: Tested, states: &[u64], out: &mut [u64])
    requires { gate_masks * (length gates.words.now / 3) ≤ length out.old }
    ensures { out.new ≡ narrowed_by (gates_of gates.entry.words.now) states.now out.old }
{
    for state in states {
        narrow(gates, *state, out);
    }
}

// The first state that is not permitted.
fn first_forbidden(h: Header, states: &[u64]) -> Option<usize>
    ensures { result ≡ position (λ x. not (permits h x)) states.now }
{
    states.iter().position(|x| !h.permits(*x))
}

// The first state on which the cascades agree.
fn first_agreeing(h: Header, a: Tested, b: Tested, states: &[u64]) -> Option<usize>
    ensures { result ≡ position (λ x. not (outputs_differ h (gates_of a.entry.words.now) (gates_of b.entry.words.now) x)) states.now }
{
    states
        .iter()
        .position(|x| !crate::compare::outputs_differ(h, a, b, *x))
}

// The number of gates of the suspect; else what is wrong with the pair, 9 or 12.
#[tactic(auto, unfolding(crate::specs::Faults::fault_check))]
fn check_faults(
    ha: Header,
    suspect: &[u64],
    hb: Header,
    reference: &[u64],
    states: &[u64],
) -> Result<usize, Refusal>
    ensures { outcome_of result ≡ fault_check ha suspect.now hb reference.now states.now }
{
    let counts = circuit::words::check_headed_pair(ha, suspect, hb, reference)?;
    if let Some(i) = first_forbidden(ha, states) {
        return Err(Refusal::BadState(i as u64));
    }
    let (a, b) = (Tested { words: suspect }, Tested { words: reference });
    if let Some(i) = first_agreeing(ha, a, b, states) {
        return Err(Refusal::AgreeingState(i as u64));
    }
    Ok(counts.first)
}

// The number of gates of the suspect, whose masks stand at the buffer's start; else what is wrong with the pair, 9, 12 or 10.
#[tactic(auto, unfolding(crate::specs::Faults::fault_outcome, crate::specs::Faults::fault_buffer))]
pub fn fault_masks(
    ha: Header,
    suspect: &[u64],
    hb: Header,
    reference: &[u64],
    states: &[u64],
    out: &mut [u64],
) -> Result<usize, Refusal>
    ensures { Yields (outcome_of result) out.new (fault_outcome ha suspect.now hb reference.now states.now (length out.old)) (fault_buffer ha suspect.now hb reference.now states.now out.old) }
{
    let gates = check_faults(ha, suspect, hb, reference, states)?;
    if out.len() < MASKS * gates {
        return Err(Refusal::NoRoom);
    }
    start_masks(ha.lines, suspect, out);
    narrow_all(Tested { words: suspect }, states, out);
    Ok(gates)
}
