// The clauses of one gate, in clause words.

ghost use Rattle.std.specs.Prelude.{◌≡◌, ◌*◌, ◌<◌, ◌≤◌, true, length, pos, bit_or};
ghost use Rattle.bits.specs.Lists.{over, Put};
ghost use Rattle.circuit.specs.Gate.{max_lines, valid, control_count};
ghost use Rattle.checking.specs.Stored.{word_limit};
ghost use Rattle.checking.specs.private.Emitter.{literal_word, literals_in, controls_stored, Currents, Lines, gate_stored, Ready};

use crate::clauses::ClauseWord;
use circuit::gate::Gate;

// The number as a word. With `as`: a clause word is no From of a u64, and try_from would have to be unwrapped.
pub(crate) fn number(x: u64) -> ClauseWord
    requires { x < word_limit }
    ensures { result ≡ pos x }
{
    x as ClauseWord
}

// The literal of a variable.
pub(crate) fn literal(variable: u64, positive: bool) -> ClauseWord
    requires { variable < word_limit }
    ensures { result ≡ literal_word positive variable }
{
    let v = variable as ClauseWord;
    if positive {
        return v;
    }
    -v
}

// Of the k controls of a gate, by rising line, every -c and then every OR (-p, c), at the buffer's start.
fn put_controls(g: Gate, k: usize, n: u64, current: &[u64], p: u64, out: &mut [ClauseWord])
    requires currents { Currents n current.now }
    requires lines { Lines (bit_or g.positive g.negative) k n }
    requires fits_word { p < word_limit }
    requires out_room { 5 * k ≤ length out.old }
    ensures { out.new ≡ over (controls_stored p (literals_in current.now g.positive (bit_or g.positive g.negative) n)) out.old }
{
    let positive = g.positive;
    let negative = g.negative;
    let not_p = literal(p, false);
    let mut left = positive | negative;
    let mut i = 0;
    // A while: the mask says when it ends, and by k that would have to be proved of the count.
    while left != 0 {
        let line = circuit::gate::lowest(left);
        let v = current[line as usize];
        let sign = circuit::gate::has(positive, line);
        out[i] = literal(v, !sign);
        let at = k + 4 * i;
        crate::put::put(&mut out[at..], &[0, 2, not_p, literal(v, sign)]);
        left &= left - 1;
        i += 1;
    }
}

// The clauses of a gate with k controls, two or more, at the buffer's start, with p = used + 1 and w = used + 2:
// OR (p, then every -c), every OR (-p, c), XOR (-w, v, p); how many words.
fn put_many(g: Gate, k: u64, n: u64, current: &[u64], used: u64, out: &mut [ClauseWord]) -> usize
    requires ready { Ready n used current.now g (length out.old) }
    requires count { k ≡ control_count g }
    requires many { 2 ≤ k }
    ensures { Put result out.new (gate_stored used current.now g) out.old }
{
    let target = g.target;
    let v = current[target as usize];
    let p = used + 1;
    let controls = k as usize;
    crate::put::put(out, &[0, number(k + 1), literal(p, true)]);
    put_controls(g, controls, n, current, p, &mut out[3..]);
    let end = 3 + 5 * controls;
    end + crate::put::put(
        &mut out[end..],
        &[
            1,
            3,
            literal(p + 1, false),
            literal(v, true),
            literal(p, true),
        ],
    )
}

// How many controls a gate has; bits are counted only where there are two or more.
pub(crate) fn control_count(g: Gate) -> u64
    requires { valid max_lines g ≡ true }
    ensures { result ≡ control_count g }
{
    let positive = g.positive;
    let negative = g.negative;
    let lines = positive | negative;
    if (lines & std::num::wrapping_sub_u64(lines, 1)) != 0 {
        return g.control_count();
    }
    if lines == 0 {
        return 0;
    }
    1
}

// The gate's clauses at the buffer's start, with `used` variables numbered so far; how many words.
pub(crate) fn put_gate(g: Gate, n: u64, current: &[u64], used: u64, out: &mut [ClauseWord]) -> usize
    requires { Ready n used current.now g (length out.old) }
    ensures { Put result out.new (gate_stored used current.now g) out.old }
{
    let k = control_count(g);
    if 2 <= k {
        return put_many(g, k, n, current, used, out);
    }
    let positive = g.positive;
    let negative = g.negative;
    let target = g.target;
    let v = current[target as usize];
    if k == 0 {
        return crate::put::put(out, &[1, 2, literal(used + 1, true), literal(v, true)]);
    }
    let line = circuit::gate::lowest(positive | negative);
    let c = literal(current[line as usize], circuit::gate::has(positive, line));
    crate::put::put(out, &[1, 3, literal(used + 1, false), literal(v, true), c])
}
