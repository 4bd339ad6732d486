// The clauses of a list, in clause words: its constants, its gates, its lines, and the OR of all d.

ghost use Rattle.std.specs.Prelude.{◌≡◌, ◌+◌, ◌/◌, ◌<◌, ◌≤◌, ◌^◌, ◌||◌, length, nat_lt};
ghost use Rattle.bits.specs.Lists.{over, Put};
ghost use Rattle.circuit.specs.Gate.{max_lines};
ghost use Rattle.circuit.specs.Words.{gates_of, gate_in};
ghost use Rattle.checking.specs.Clauses.{input_of, new_variable};
ghost use Rattle.checking.specs.Pair.{constant_clauses, pair_clauses};
ghost use Rattle.checking.specs.Stored.{stored, word_limit};
ghost use Rattle.checking.specs.private.Emitter.{by_line};
ghost use Rattle.checking.specs.private.Emission.{Holds, ordered, line_stored, last_stored, LineReady, LinesReady, LinesPut, GatesReady, GatesPut, ConstantsReady, FrontReady, FrontPut, ListReady};

use crate::clauses::ClauseWord;
use circuit::gate::Gate;
use circuit::header::Header;

// Words written and variables numbered so far.
// Below, n, the current variables and `used` are three parameters: one record (`Ready`, `LinesReady`, `GatesReady`)
// says what holds of all three, so a struct of them would make no contract shorter.
#[derive(Clone, Copy)]
pub(crate) struct Front {
    at: usize,
    used: u64,
}

// The last variable that a gate with k controls adds.
fn new_variable(used: u64, k: u64) -> u64
    requires { used < word_limit }
    ensures { result ≡ new_variable used k }
{
    if k < 2 {
        return used + 1;
    }
    used + 2
}

// The inputs as the current variables.
fn set_inputs(current: &mut [u64])
    ensures { Holds (length current.old) current.new input_of }
{
    for k in 0..current.len() {
        current[k] = k as u64 + 1;
    }
}

// The clauses of the constants at the buffer's start, by rising line; how many words.
fn put_constants(h: Header, out: &mut [ClauseWord]) -> usize
    requires { ConstantsReady h (length out.old) }
    ensures { Put result out.new (stored (constant_clauses h)) out.old }
{
    let mut left = h.constants;
    let mut at = 0;
    // A while, as for controls (`put_controls`).
    while left != 0 {
        let line = circuit::gate::lowest(left);
        let positive = circuit::gate::has(h.values, line);
        at += crate::put::put(
            &mut out[at..],
            &[0, 1, crate::emitter::literal(line + 1, positive)],
        );
        left &= left - 1;
    }
    at
}

// Gate i of the words, from the last one on where `reversed`.
fn ordered_gate(words: &[u64], reversed: bool, i: usize) -> Gate
    requires { i < length words.now / 3 }
    ensures { result ≡ gate_in (ordered reversed (gates_of words.now)) i }
{
    if reversed {
        return circuit::words::gate_at(words, words.len() / Gate::WORDS - 1 - i);
    }
    circuit::words::gate_at(words, i)
}

// The gates' clauses at the buffer's start, from the last gate on where `reversed`, with `used` variables numbered so far; the current variables after them.
fn put_gates(
    n: u64,
    words: &[u64],
    reversed: bool,
    used: u64,
    current: &mut [u64],
    out: &mut [ClauseWord],
) -> Front
    requires { GatesReady n (ordered reversed (gates_of words.now)) used current.old (length out.old) }
    ensures { GatesPut n (ordered reversed (gates_of words.now)) used (by_line current.old) current.new out.old out.new result.at result.used }
{
    let mut used = used;
    let mut at = 0;
    for i in 0..words.len() / Gate::WORDS {
        let g = ordered_gate(words, reversed, i);
        let target = g.target;
        let k = crate::emitter::control_count(g);
        at += crate::emitter::put_gate(g, n, current, used, &mut out[at..]);
        used = new_variable(used, k);
        current[target as usize] = used;
    }
    Front { at, used }
}

// The clause of a line's d at the buffer's start; how many words. Two variables that differ are those of a line that is hit.
fn put_difference(d: u64, a: u64, b: u64, out: &mut [ClauseWord]) -> usize
    requires { LineReady d a b (length out.old) }
    ensures { Put result out.new (line_stored d a b) out.old }
{
    let not_d = crate::emitter::literal(d, false);
    if a != b {
        let x = crate::emitter::literal(a, true);
        let y = crate::emitter::literal(b, true);
        return crate::put::put(out, &[1, 3, not_d, x, y]);
    }
    crate::put::put(out, &[0, 1, not_d])
}

// The clauses of the lines that are not junk at the buffer's start, with `used` variables numbered so far.
fn put_differences(
    n: u64,
    junk: u64,
    left: &[u64],
    right: &[u64],
    used: u64,
    out: &mut [ClauseWord],
) -> Front
    requires { LinesReady n junk left.now right.now used (length out.old) }
    ensures { LinesPut n junk left.now right.now used out.old out.new result.at result.used }
{
    let mut lines = crate::faults::lines_below(n) & !junk;
    let mut used = used;
    let mut at = 0;
    // A while, as for controls (`put_controls`); with a `for` that passes over the junk lines the emission of two short cascades takes three times as long.
    while lines != 0 {
        let line = circuit::gate::lowest(lines);
        used += 1;
        let a = left[line as usize];
        let b = right[line as usize];
        at += put_difference(used, a, b, &mut out[at..]);
        lines &= lines - 1;
    }
    Front { at, used }
}

// The OR of `count` d at the buffer's start.
fn put_last(count: u64, used: u64, out: &mut [ClauseWord])
    requires few_lines { count ≤ max_lines }
    requires fits_word { used + count < word_limit }
    requires out_room { count + 2 ≤ length out.old }
    ensures { out.new ≡ over (last_stored count used) out.old }
{
    crate::put::put(out, &[0, crate::emitter::number(count)]);
    for k in 0..count {
        out[k as usize + 2] = crate::emitter::literal(used + 1 + k, true);
    }
}

// The clauses before those of the d, at the buffer's start. With marks: the constants, and the gates of each cascade from the inputs.
// Without: the gates of the miter. The two variables of each line that are compared then stand in `left` and `right`.
fn put_front(
    h: Header,
    a: &[u64],
    b: &[u64],
    left: &mut [u64],
    right: &mut [u64],
    out: &mut [ClauseWord],
) -> Front
    requires { FrontReady h (gates_of a.now) (gates_of b.now) left.old right.old (length out.old) }
    ensures { FrontPut h (gates_of a.now) (gates_of b.now) left.new right.new out.old out.new result.at result.used }
{
    let n = h.lines;
    if h.marked() {
        let start = put_constants(h, out);
        let first = put_gates(n, a, false, n, left, &mut out[start..]);
        let at = start + first.at;
        let second = put_gates(n, b, false, first.used, right, &mut out[at..]);
        return Front {
            at: at + second.at,
            used: second.used,
        };
    }
    let first = put_gates(n, a, false, n, right, out);
    let second = put_gates(n, b, true, first.used, right, &mut out[first.at..]);
    Front {
        at: first.at + second.at,
        used: second.used,
    }
}

// The stored clauses of a pair at the buffer's start.
pub(crate) fn put_list(h: Header, a: &[u64], b: &[u64], out: &mut [ClauseWord])
    requires { ListReady h (gates_of a.now) (gates_of b.now) (length out.old) }
    ensures { out.new ≡ over (stored (pair_clauses h (gates_of a.now) (gates_of b.now))) out.old }
{
    let n = h.lines;
    let mut left = [0; 64];
    let mut right = [0; 64];
    set_inputs(&mut left[..n as usize]);
    set_inputs(&mut right[..n as usize]);
    let front = put_front(h, a, b, &mut left, &mut right, out);
    let lines = put_differences(n, h.junk, &left, &right, front.used, &mut out[front.at..]);
    let end = front.at + lines.at;
    put_last(lines.used - front.used, front.used, &mut out[end..]);
}
