// Reading at a position of a text that was judged good: a number, a line, all lines. Nothing is tested again.

ghost use Rattle.std.specs.Prelude.{◌≡◌, ℕ, ◌+◌, ◌*◌, ◌^◌, ◌<◌, ◌≤◌, List, length, if◌then◌else◌, bit_or};
ghost use Rattle.bits.specs.Lists.{over};
ghost use Rattle.circuit.specs.declared.gate.Gate.{Gate};
ghost use Rattle.circuit.specs.Gate.{max_lines, Control};
ghost use Rattle.circuit.specs.Words.{words_of};
ghost use Rattle.circuit.specs.Text.{number_text, controls_text, gate_line};
ghost use Rattle.circuit.specs.File.{gate_of};
ghost use Rattle.circuit.specs.private.Fill.{NumberAt, ControlsAt, GateAt, GatesAt};

use crate::file::scan::Numeral;
use crate::gate::Gate;

// A gate and the position after its line.
#[derive(Clone, Copy)]
pub struct GateRead {
    pub gate: Gate,
    pub next: usize,
}

// The number at a position, and the position after it. Its value is made in words: bytes were slower.
fn number(text: &[u8], at: usize) -> Numeral
    requires { (k : ℕ) × NumberAt text.now at k }
    ensures { (k : ℕ) → NumberAt text.now at k → result ≡ record { value = k; next = at + length (number_text k) } }
{
    let a = text[at] as u64;
    let b = text[at + 1] as u64;
    if b < 48 {
        return Numeral {
            value: a - 48,
            next: at + 1,
        };
    }
    Numeral {
        value: 10 * (a - 48) + (b - 48),
        next: at + 2,
    }
}

// The mask with line k, where it is to be set.
pub(crate) fn joined(mask: u64, k: u64, set: bool) -> u64
    requires { k < max_lines }
    ensures { result ≡ bit_or mask (if set then 2 ^ k else 0) }
{
    if set {
        return mask | crate::gate::line(k);
    }
    mask
}

// The gate of a line with this target, whose controls start at a position, and the position after the line.
fn controls(text: &[u8], first: usize, target: u64) -> GateRead
    requires { (cs : List Control) × ControlsAt text.now first cs }
    ensures { (cs : List Control) → ControlsAt text.now first cs → result ≡ record { gate = gate_of target cs; next = first + length (controls_text cs) + 1 } }
{
    let mut at = first;
    let mut positive = 0;
    let mut negative = 0;
    // Each control says where the next one starts.
    while text[at] == b'\t' {
        let plus = text[at + 1] == b'+';
        let k = number(text, at + 2);
        let line = k.value;
        positive = joined(positive, line, plus);
        negative = joined(negative, line, !plus);
        at = k.next;
    }
    GateRead {
        gate: Gate {
            positive,
            negative,
            target,
        },
        next: at + 1,
    }
}

// The gate of the line at a position, and the position after it.
fn gate_line(text: &[u8], at: usize) -> GateRead
    requires { (g : Gate) × GateAt text.now at g }
    ensures { (g : Gate) → GateAt text.now at g → result ≡ record { gate = g; next = at + length (gate_line g) } }
{
    let k = number(text, at + 2);
    controls(text, k.next, k.value)
}

// Writes the words of the gates whose lines start at a position to the buffer's start.
pub(crate) fn fill(text: &[u8], start: usize, gates: usize, out: &mut [u64])
    requires { ((gs : List Gate) × (GatesAt text.now start gs) × (length gs ≡ gates)) × (3 * gates ≤ length out.old) }
    ensures { (gs : List Gate) → GatesAt text.now start gs → length gs ≡ gates → out.new ≡ over (words_of gs) out.old }
{
    let mut at = start;
    for i in 0..gates {
        let read = gate_line(text, at);
        let to = Gate::WORDS * i;
        crate::words::store_gate(&mut out[to..], read.gate);
        at = read.next;
    }
}
