// Writing at the start of a buffer: a number, a control, a line. Each function tells how many bytes it wrote.

ghost use Rattle.std.specs.Prelude.{◌≡◌, true, ◌+◌, ◌*◌, ◌/◌, ◌%◌, ◌^◌, ◌<◌, ◌≤◌, ◌∷◌, ◌++◌, length, if◌then◌else◌, count_ones};
ghost use Rattle.bits.specs.Lists.{Put};
ghost use Rattle.circuit.specs.Gate.{max_lines, controls_of};
ghost use Rattle.circuit.specs.Header.{marks_good};
ghost use Rattle.circuit.specs.Text.{tab, digit, number_text, control_text, controls_text, count_line, const_line, junk_line, const_lines, junk_lines, header_lines, gate_text, gate_line, plus_sign, minus_sign};
ghost use Rattle.circuit.specs.private.Put.{mask_gate, low_controls, high_controls, mark_line, mark_text};

use crate::gate::Gate;
use crate::header::Header;

// Copies the items to the buffer's start, and tells how many they are. Each crate has its own: one for all would be open and ask for room, and with a test of the room emission with many controls takes half again as long.
pub(crate) fn put<T: Copy>(out: &mut [T], items: &[T]) -> usize
    requires { length items.now ≤ length out.old }
    ensures { Put result out.new items.now out.old }
{
    // With copy_from_slice, which compares the two places, writing takes longer.
    let size = items.len();
    for i in 0..size {
        out[i] = items[i];
    }
    size
}

// The digit of a number below 10.
fn digit(k: u8) -> u8
    requires { k < 10 }
    ensures { result ≡ digit k }
{
    b'0' + k
}

// Writes a number below 100.
#[tactic(auto, using(crate::proofs::lemmas::file::Numbers::text_rules))]
fn put_number(out: &mut [u8], k: u64) -> usize
    requires { (k < 100) × (length (number_text k) ≤ length out.old) }
    ensures { Put result out.new (number_text k) out.old }
{
    // Divisions of a u8 are faster than those of a u64.
    let k = k as u8;
    if 10 <= k {
        out[0] = digit(k / 10);
        out[1] = digit(k % 10);
        return 2;
    }
    out[0] = digit(k);
    1
}

// A control's sign.
fn sign(positive: bool) -> u8
    ensures { result ≡ (if positive then plus_sign else minus_sign) }
{
    if positive { b'+' } else { b'-' }
}

// Writes a tab and a control on a line below 10.
#[tactic(auto, using(crate::proofs::lemmas::file::Numbers::text_rules))]
fn put_low_control(out: &mut [u8], k: u64, positive: bool) -> usize
    requires { (k < 10) × (3 ≤ length out.old) }
    ensures { Put result out.new (tab ∷ control_text (record { line = k; positive = positive })) out.old }
{
    out[0] = b'\t';
    out[1] = sign(positive);
    out[2] = digit(k as u8);
    3
}

// The two digits of the number 10 + k as one word, the first one in its low byte.
fn both_digits(k: u8) -> u32
    requires { k < 90 }
    ensures { result ≡ digit (1 + k / 10) + 256 * digit (k % 10) }
{
    // The quotient is added to the first digit, and 10 times the quotient is taken off the last one, which counts 256.
    12337 + 256 * (k as u32) - 2559 * ((k / 10) as u32)
}

// Writes a tab and a control on line 10 + k.
#[tactic(auto, using(crate::proofs::lemmas::file::put::Cut::text_above))]
fn put_high_control(out: &mut [u8], k: u64, positive: bool) -> usize
    requires { (k < 90) × (4 ≤ length out.old) }
    ensures { Put result out.new (tab ∷ control_text (record { line = 10 + k; positive = positive })) out.old }
{
    out[0] = b'\t';
    out[1] = sign(positive);
    // One word of both digits is fewer instructions than each by itself.
    let word = both_digits(k as u8);
    out[2] = (word % 256) as u8;
    out[3] = (word / 256) as u8;
    4
}

// Writes the controls on lines below 10, each after a tab, by rising line.
fn put_low_controls(out: &mut [u8], positive: u64, lines: u64) -> usize
    requires { (lines < 2 ^ 10) × (length (low_controls positive lines) ≤ length out.old) }
    ensures { Put result out.new (low_controls positive lines) out.old }
{
    // A while, one turn for each set bit: the lowest one is taken and cleared, which no range does.
    let mut left = lines;
    let mut at = 0;
    while left != 0 {
        let k = crate::gate::lowest(left);
        at += put_low_control(&mut out[at..], k, crate::gate::has(positive, k));
        left &= left - 1;
    }
    at
}

// Writes the controls on lines from 10 on, each after a tab, by rising line. Bit k of a mask is line 10 + k.
fn put_high_controls(out: &mut [u8], positive: u64, lines: u64) -> usize
    requires { length (high_controls positive lines) ≤ length out.old }
    ensures { Put result out.new (high_controls positive lines) out.old }
{
    // A while, as for the lines below 10.
    let mut left = lines;
    let mut at = 0;
    while left != 0 {
        let k = crate::gate::lowest(left);
        at += put_high_control(&mut out[at..], k, crate::gate::has(positive, k));
        left &= left - 1;
    }
    at
}

// Writes the controls of two masks, each after a tab, by rising line.
fn put_controls(out: &mut [u8], positive: u64, negative: u64) -> usize
    requires { length (controls_text (controls_of (mask_gate positive negative))) ≤ length out.old }
    ensures { Put result out.new (controls_text (controls_of (mask_gate positive negative))) out.old }
{
    // A loop for the lines of one digit and one for those of two: a single loop would ask of each control which it has. A gate without controls goes through neither.
    let lines = positive | negative;
    if lines == 0 {
        return 0;
    }
    let at = put_low_controls(out, positive, lines & 1023);
    at + put_high_controls(&mut out[at..], positive >> 10, lines >> 10)
}

// Writes a word and a number below 100.
fn put_numbered(out: &mut [u8], word: &[u8], k: u64) -> usize
    requires { (k < 100) × (length word.now + length (number_text k) ≤ length out.old) }
    ensures { Put result out.new (word.now ++ number_text k) out.old }
{
    let at = put(out, word);
    at + put_number(&mut out[at..], k)
}

// Writes a gate's line without its LF.
fn put_gate_text(out: &mut [u8], g: Gate) -> usize
    requires { (g.target < 100) × (length (gate_text g) ≤ length out.old) }
    ensures { Put result out.new (gate_text g) out.old }
{
    let at = put_numbered(out, b"g\t", g.target);
    at + put_controls(&mut out[at..], g.positive, g.negative)
}

// Writes a gate's line.
#[tactic(auto, using(crate::proofs::lemmas::file::put::Laws::put_byte, crate::proofs::lemmas::file::put::Laws::line_length))]
pub(crate) fn put_gate_line(out: &mut [u8], g: Gate) -> usize
    requires { (g.target < 100) × (length (gate_line g) ≤ length out.old) }
    ensures { Put result out.new (gate_line g) out.old }
{
    let at = put_gate_text(out, g);
    out[at] = b'\n';
    at + 1
}

// Writes the line with the line count.
fn put_count(out: &mut [u8], n: u64) -> usize
    requires { (n < 100) × (length (count_line n) ≤ length out.old) }
    ensures { Put result out.new (count_line n) out.old }
{
    let at = put_numbered(out, b"lines\t", n);
    out[at] = b'\n';
    at + 1
}

// Writes the line of a constant.
fn put_constant(out: &mut [u8], k: u64, value: bool) -> usize
    requires { (k < 100) × (length (const_line k value) ≤ length out.old) }
    ensures { Put result out.new (const_line k value) out.old }
{
    let at = put_numbered(out, b"const\t", k);
    if value {
        return at + put(&mut out[at..], b"\t1\n");
    }
    at + put(&mut out[at..], b"\t0\n")
}

// Writes the line of a junk line.
fn put_junk(out: &mut [u8], k: u64) -> usize
    requires { (k < 100) × (length (junk_line k) ≤ length out.old) }
    ensures { Put result out.new (junk_line k) out.old }
{
    let at = put_numbered(out, b"junk\t", k);
    out[at] = b'\n';
    at + 1
}

// Writes the line of a mark, of a constant or else of a junk line.
fn put_mark(out: &mut [u8], constant: bool, k: u64, value: bool) -> usize
    requires { (k < 100) × (length (mark_line constant k value) ≤ length out.old) }
    ensures { Put result out.new (mark_line constant k value) out.old }
{
    if constant {
        return put_constant(out, k, value);
    }
    put_junk(out, k)
}

// Writes the lines of the marks of a mask, by rising line.
fn put_marks(out: &mut [u8], constant: bool, mask: u64, values: u64) -> usize
    requires { length (mark_text constant mask values) ≤ length out.old }
    ensures { Put result out.new (mark_text constant mask values) out.old }
{
    // A while, one turn for each set bit, as for controls.
    let mut left = mask;
    let mut at = 0;
    while left != 0 {
        let k = crate::gate::lowest(left);
        at += put_mark(&mut out[at..], constant, k, crate::gate::has(values, k));
        left &= left - 1;
    }
    at
}

// Writes the lines of a header's constants and junk lines.
fn put_header_marks(out: &mut [u8], h: Header) -> usize
    requires { (h.lines ≤ max_lines) × (marks_good h ≡ true) × (length (const_lines h ++ junk_lines h) ≤ length out.old) }
    ensures { Put result out.new (const_lines h ++ junk_lines h) out.old }
{
    let at = put_marks(out, true, h.constants, h.values);
    at + put_marks(&mut out[at..], false, h.junk, 0)
}

// Writes the lines of a header.
pub(crate) fn put_header(out: &mut [u8], h: Header) -> usize
    requires { (h.lines ≤ max_lines) × (marks_good h ≡ true) × (length (header_lines h) ≤ length out.old) }
    ensures { Put result out.new (header_lines h) out.old }
{
    let at = put_count(out, h.lines);
    at + put_header_marks(&mut out[at..], h)
}

// How many bytes a text of each line of a mask has: so many each, and a second digit from line 10 on.
fn lines_size(each: u64, mask: u64) -> usize
    requires { each ≤ 10 }
    ensures { (result ≡ each * count_ones mask + count_ones (mask / 2 ^ 10)) × (result ≤ 704) }
{
    (each * crate::gate::count(mask) + crate::gate::count(mask >> 10)) as usize
}

// How many bytes the lines of a header have.
#[tactic(auto, using(crate::proofs::lemmas::file::put::Marks::header_long))]
pub(crate) fn header_size(h: Header) -> usize
    requires { (h.lines ≤ max_lines) × (marks_good h ≡ true) }
    ensures { (result ≡ length (header_lines h)) × (result ≤ 1500) }
{
    7 + crate::file::scan::digits(h.lines) + lines_size(10, h.constants) + lines_size(7, h.junk)
}

// How many bytes the controls of two masks have, each after a tab.
#[tactic(auto, using(crate::proofs::lemmas::file::put::Laws::controls_long))]
fn controls_size(positive: u64, negative: u64) -> usize
    ensures { (result ≡ length (controls_text (controls_of (mask_gate positive negative)))) × (result ≤ 704) }
{
    lines_size(3, positive | negative)
}

// How many bytes the line of a gate has.
#[tactic(auto, using(crate::proofs::lemmas::file::put::Laws::gate_length, crate::proofs::lemmas::file::put::Laws::same_controls, crate::proofs::lemmas::file::scan::Laws::width_two))]
pub(crate) fn gate_size(g: Gate) -> usize
    ensures { (result ≡ length (gate_line g)) × (result ≤ 800) }
{
    3 + crate::file::scan::digits(g.target) + controls_size(g.positive, g.negative)
}
