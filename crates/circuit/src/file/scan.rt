// Reading at a position of a text: a byte, a field, a line. The text, the position, the lines and the place stay apart, since the text is the same at each call and the position is not. What is read comes with the position after it; a struct for each names it, as line or lines, and one over all would not.

ghost use Rattle.std.specs.Prelude.{◌≡◌, ◌+◌, ◌<◌, ◌≤◌, true, false, ◌||◌, [], length, drop, ◌==◌, slice_index_or};
ghost use Rattle.circuit.specs.Gate.{max_lines};
ghost use Rattle.circuit.specs.Outcome.{outcome_of};
ghost use Rattle.circuit.specs.Text.{plus_sign, minus_sign};
ghost use Rattle.circuit.specs.File.{number_of, is_end};
ghost use Rattle.circuit.specs.private.Scan.{is_stop, field_at, line_at, width, numeral_at, added, line_next, control_next, controls_next, gate_next, count_next};

use crate::gate::Gate;
use crate::refusal::Refusal;

// The byte that ends the line of the line count.
const COUNT_END: u8 = b'\n';

// The number in a field, and the position after the field.
#[derive(Clone, Copy)]
pub struct Numeral {
    pub value: u64,
    pub next: usize,
}

// A control, and the position after its field.
#[derive(Clone, Copy)]
pub struct ControlRead {
    pub line: u64,
    pub positive: bool,
    pub next: usize,
}

// What the controls of a gate line come to: the lowest line that may follow, whether they rise, and whether the target is apart. No refusal yet, as 4 goes before 5 whichever is seen first.
#[derive(Clone, Copy)]
pub struct Seen {
    pub low: u64,
    pub rising: bool,
    pub apart: bool,
}

// The byte at a position; LF past the end.
fn byte(text: &[u8], at: usize) -> u8
    ensures { result ≡ slice_index_or text.now at 10 }
{
    text.get(at).copied().unwrap_or(b'\n')
}

// Whether the byte ends a field.
fn stop(b: u8) -> bool
    ensures { result ≡ is_stop b }
{
    b == b'\t' || b == b'\n'
}

// Whether the byte is a control's sign.
fn sign(b: u8) -> bool
    ensures { result ≡ (b == plus_sign || b == minus_sign) }
{
    matches!(b, b'+' | b'-')
}

// How many digits a number below 100 has. Text has a function for any number.
pub(crate) fn digits(k: u64) -> usize
    ensures { result ≡ width k }
{
    if 10 <= k { 2 } else { 1 }
}

// The number in the field at a position, if it has one. Its value is made in words: bytes were slower.
#[tactic(auto, using(crate::proofs::lemmas::file::scan::Laws::number_rules))]
pub(crate) fn number(text: &[u8], at: usize) -> Option<Numeral>
    requires { at ≤ length text.now }
    ensures { result ≡ numeral_at at (number_of 0 (field_at (drop at text.now))) }
{
    let a = byte(text, at);
    if !a.is_ascii_digit() {
        return None;
    }
    let b = byte(text, at + 1);
    if stop(b) {
        return Some(Numeral {
            value: a as u64 - 48,
            next: at + 1,
        });
    }
    if a == b'0' {
        return None;
    }
    if !b.is_ascii_digit() {
        return None;
    }
    if !stop(byte(text, at + 2)) {
        return None;
    }
    Some(Numeral {
        value: 10 * (a as u64 - 48) + (b as u64 - 48),
        next: at + 2,
    })
}

// The target or control line in the field at a position; else 1 or 3.
#[tactic(auto, using(crate::proofs::lemmas::file::scan::Laws::line_rules))]
fn line(text: &[u8], at: usize, n: u64, place: u64) -> Result<Numeral, Refusal>
    requires { at ≤ length text.now }
    ensures { outcome_of result ≡ line_next n place at (field_at (drop at text.now)) }
{
    let k = number(text, at).ok_or(Refusal::WrongForm(place))?;
    if n <= k.value {
        return Err(Refusal::LineOutside(place));
    }
    Ok(k)
}

// The control in the field at a position; else 1 or 3.
#[tactic(auto, using(crate::proofs::lemmas::file::scan::Laws::control_rules))]
fn control(text: &[u8], at: usize, n: u64, place: u64) -> Result<ControlRead, Refusal>
    requires { at ≤ length text.now }
    ensures { outcome_of result ≡ control_next n place at (field_at (drop at text.now)) }
{
    let s = byte(text, at);
    if !sign(s) {
        return Err(Refusal::WrongForm(place));
    }
    let k = line(text, at + 1, n, place)?;
    Ok(ControlRead {
        line: k.value,
        positive: s == b'+',
        next: k.next,
    })
}

impl Seen {
    // No control yet.
    fn none() -> Seen
        ensures { result ≡ record { low = 0; rising = true; apart = true } }
    {
        Seen {
            low: 0,
            rising: true,
            apart: true,
        }
    }

    // One control more, on line k.
    fn add(self, target: u64, k: u64) -> Seen
        requires { k < max_lines }
        ensures { result ≡ added target self k }
    {
        Seen {
            low: k + 1,
            rising: self.rising && self.low <= k,
            apart: self.apart && k != target,
        }
    }
}

// The position after a gate line with this target, whose controls start at a position; else 1, 3, 4 or 5.
fn controls(text: &[u8], first: usize, n: u64, place: u64, target: u64) -> Result<usize, Refusal>
    requires { (first ≤ length text.now) × (n ≤ max_lines) × (field_at (drop first text.now) ≡ []) }
    ensures { outcome_of result ≡ controls_next n place target first (drop first text.now) }
{
    let mut at = first;
    let mut seen = Seen::none();
    // Each control says where the next one starts, so no iterator counts them.
    while byte(text, at) == b'\t' {
        let k = control(text, at + 1, n, place)?;
        seen = seen.add(target, k.line);
        at = k.next;
    }
    if text.len() <= at {
        return Err(Refusal::WrongForm(place));
    }
    if !seen.apart {
        return Err(Refusal::TargetControlled(place));
    }
    if !seen.rising {
        return Err(Refusal::NotRising(place));
    }
    Ok(at + 1)
}

// The position after the gate line at a position, after so many gate lines; else 6, 1, 3, 4 or 5.
#[tactic(auto, using(crate::proofs::lemmas::file::scan::Rest::gate_rules))]
pub(crate) fn gate_line(
    text: &[u8],
    start: usize,
    n: u64,
    place: u64,
    gates: usize,
) -> Result<usize, Refusal>
    requires { (start ≤ length text.now) × (n ≤ max_lines) }
    ensures { outcome_of result ≡ gate_next n place gates start (drop start text.now) }
{
    if !text[start..].starts_with(b"g\t") {
        return Err(Refusal::WrongForm(place));
    }
    if Gate::MAX_GATES <= gates {
        return Err(Refusal::TooManyGates(place));
    }
    let k = line(text, start + 2, n, place)?;
    controls(text, k.next, n, place, k.value)
}

// Whether the line at a position is `end` with its LF.
#[tactic(auto, using(crate::proofs::lemmas::file::scan::Rest::ends_there))]
pub(crate) fn ends(text: &[u8], at: usize) -> bool
    requires { at ≤ length text.now }
    ensures { result ≡ is_end (line_at (drop at text.now)) }
{
    text[at..].starts_with(b"end\n")
}

// The line count of a text and the position after its first line; else 1 or 2.
#[tactic(auto, using(crate::proofs::lemmas::file::scan::Rest::count_rules))]
pub(crate) fn line_count(text: &[u8]) -> Result<Numeral, Refusal>
    ensures { outcome_of result ≡ count_next text.now }
{
    if !text.starts_with(b"lines\t") {
        return Err(Refusal::WrongForm(0));
    }
    let k = number(text, 6).ok_or(Refusal::WrongForm(0))?;
    if !crate::words::line_count_good(k.value) {
        return Err(Refusal::BadLineCount);
    }
    if text.len() <= k.next {
        return Err(Refusal::WrongForm(0));
    }
    if text[k.next] != COUNT_END {
        return Err(Refusal::WrongForm(0));
    }
    Ok(Numeral {
        value: k.value,
        next: k.next + 1,
    })
}
