// Cascade files: reading and writing.

ghost use Rattle.std.specs.Prelude.{◌≡◌, ◌/◌, ◌<◌, ◌≤◌, true, ◌++◌, length};
ghost use Rattle.bits.specs.Lists.{Put};
ghost use Rattle.circuit.specs.Gate.{max_lines, max_gates};
ghost use Rattle.circuit.specs.Header.{marks_good};
ghost use Rattle.circuit.specs.Outcome.{outcome_of, Yields};
ghost use Rattle.circuit.specs.Words.{gates_of, all_valid};
ghost use Rattle.circuit.specs.Text.{gate_lines, end_line, text_of};
ghost use Rattle.circuit.specs.private.Scan.{counts_from};
ghost use Rattle.circuit.specs.File.{read_outcome, read_buffer, write_outcome, write_buffer};

use crate::gate::Gate;
use crate::header::Header;
use crate::refusal::Refusal;

pub mod fill;
pub mod marks;
pub mod put;
pub mod scan;

// A cascade that was read: its header, its number of gates and the bytes that it took.
#[derive(Clone, Copy, Debug, PartialEq, Eq)]
pub struct ReadCounts {
    pub header: Header,
    pub gates: usize,
    pub taken: usize,
}

// The counts of a cascade with this header whose gate lines start at line `first` and at a position; else 1, 3, 4, 5 or 6 by line.
// Not inlined: a loop of its own takes less time (docs/DECISIONS.md, Speed).
#[inline(never)]
fn judge(text: &[u8], h: Header, first: u64, start: usize) -> Result<ReadCounts, Refusal>
    requires { (start ≤ length text.now) × (h.lines ≤ max_lines) × (first ≤ start) }
    ensures { outcome_of result ≡ counts_from h first start text.now }
{
    let mut at = start;
    let mut gates = 0;
    // Each line says where the next one starts, so no iterator counts them.
    while !crate::file::scan::ends(text, at) {
        at = crate::file::scan::gate_line(text, at, h.lines, gates as u64 + first, gates)?;
        gates += 1;
    }
    Ok(ReadCounts {
        header: h,
        gates,
        taken: at + 4,
    })
}

// The cascade at the start of a text, its words at the buffer's start; else 1 to 6 or 14 by line, or 10. All of the text is judged before a word is written.
pub fn read(text: &[u8], out: &mut [u64]) -> Result<ReadCounts, Refusal>
    ensures { Yields (outcome_of result) out.new (read_outcome text.now (length out.old)) (read_buffer text.now out.old) }
{
    let header = crate::file::marks::header(text)?;
    let counts = judge(text, header.header, header.place, header.next)?;
    if out.len() / Gate::WORDS < counts.gates {
        return Err(Refusal::NoRoom);
    }
    crate::file::fill::fill(text, header.next, counts.gates, out);
    Ok(counts)
}

// How many bytes the text of a cascade has.
fn text_size(h: Header, words: &[u64]) -> usize
    requires { (length words.now / 3 ≤ max_gates) × (h.lines ≤ max_lines) × (marks_good h ≡ true) }
    ensures { result ≡ length (text_of h (gates_of words.now)) }
{
    let mut size = crate::file::put::header_size(h) + 4;
    for i in 0..words.len() / Gate::WORDS {
        size += crate::file::put::gate_size(crate::words::gate_at(words, i));
    }
    size
}

// Writes the gate lines of a cascade and `end`, and tells how many bytes they are. That the gates were tested is asked here and of the whole text alone, so no struct says it.
fn put_lines(words: &[u64], out: &mut [u8]) -> usize
    requires { (all_valid max_lines (gates_of words.now) ≡ true) × (length (gate_lines (gates_of words.now) ++ end_line) ≤ length out.old) }
    ensures { Put result out.new (gate_lines (gates_of words.now) ++ end_line) out.old }
{
    let mut at = 0;
    for i in 0..words.len() / Gate::WORDS {
        at += crate::file::put::put_gate_line(&mut out[at..], crate::words::gate_at(words, i));
    }
    at + crate::file::put::put(&mut out[at..], b"end\n")
}

// Writes the text of a cascade, and tells how many bytes it is. Not inlined, as `judge`.
#[inline(never)]
fn put_text(h: Header, words: &[u64], out: &mut [u8]) -> usize
    requires { (h.lines ≤ max_lines) × (marks_good h ≡ true) × (all_valid max_lines (gates_of words.now) ≡ true) × (length (text_of h (gates_of words.now)) ≤ length out.old) }
    ensures { Put result out.new (text_of h (gates_of words.now)) out.old }
{
    let at = crate::file::put::put_header(out, h);
    at + put_lines(words, &mut out[at..])
}

// The number of bytes of a cascade's text, which stands at the buffer's start; else 2, 14, 11, 6, 7 or 10.
pub fn write(h: Header, words: &[u64], out: &mut [u8]) -> Result<usize, Refusal>
    ensures { Yields (outcome_of result) out.new (write_outcome h words.now (length out.old)) (write_buffer h words.now out.old) }
{
    crate::words::check_headed(h, words, Gate::MAX_GATES)?;
    let size = text_size(h, words);
    if out.len() < size {
        return Err(Refusal::NoRoom);
    }
    Ok(put_text(h, words, out))
}
