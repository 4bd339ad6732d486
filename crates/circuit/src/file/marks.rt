// Reading the header of a text: its line count, and the mark lines after it, those of constants and then those of junk lines.

ghost use Rattle.std.specs.Prelude.{◌≡◌, ◌≤◌, true, [], length, drop};
ghost use Rattle.circuit.specs.Gate.{max_lines};
ghost use Rattle.circuit.specs.Outcome.{outcome_of};
ghost use Rattle.circuit.specs.File.{starts_mark};
ghost use Rattle.circuit.specs.private.Scan.{field_at, line_at};
ghost use Rattle.circuit.specs.private.Marks.{word_size, end_size, mark_line_next, value_at, mark_next, group_next, header_next};

use crate::file::scan::Numeral;
use crate::header::Header;
use crate::refusal::Refusal;

// The marks of a group: the mask of their lines, and that of those with value 1; and the index and the position of the next line.
#[derive(Clone, Copy)]
pub struct MarksNext {
    pub mask: u64,
    pub values: u64,
    pub place: u64,
    pub next: usize,
}

// The header of a text, and the index and the position of the line after it.
#[derive(Clone, Copy)]
pub struct HeaderNext {
    pub header: Header,
    pub place: u64,
    pub next: usize,
}

// How many bytes a mark line has before its line number, and after it.
fn word_size(constant: bool) -> usize
    ensures { result ≡ word_size constant }
{
    if constant { 6 } else { 5 }
}

fn end_size(constant: bool) -> usize
    ensures { result ≡ end_size constant }
{
    if constant { 3 } else { 1 }
}

// Whether the line at a position starts as that of a constant, or else of a junk line.
#[tactic(auto, using(crate::proofs::lemmas::file::marks::Laws::start_rules))]
fn starts(text: &[u8], at: usize, constant: bool) -> bool
    requires { at ≤ length text.now }
    ensures { result ≡ starts_mark constant (line_at (drop at text.now)) }
{
    if constant {
        return text[at..].starts_with(b"const\t");
    }
    text[at..].starts_with(b"junk\t")
}

// The line of a mark in the field at a position, after those of a mask; else 1 or 14.
#[tactic(auto, using(crate::proofs::lemmas::file::marks::Laws::line_rules))]
fn mark_line(text: &[u8], at: usize, n: u64, mask: u64, place: u64) -> Result<Numeral, Refusal>
    requires { (at ≤ length text.now) × (n ≤ max_lines) }
    ensures { outcome_of result ≡ mark_line_next n place mask at (field_at (drop at text.now)) }
{
    let k = crate::file::scan::number(text, at).ok_or(Refusal::WrongForm(place))?;
    if n <= k.value {
        return Err(Refusal::BadMark(place));
    }
    if crate::gate::line(k.value) <= mask {
        return Err(Refusal::BadMark(place));
    }
    Ok(k)
}

// The value of the mark whose line ends before a position, false for a junk line; else 1.
#[tactic(auto, using(crate::proofs::lemmas::file::marks::Laws::value_rules))]
fn value(text: &[u8], at: usize, constant: bool, place: u64) -> Result<bool, Refusal>
    requires { (at ≤ length text.now) × (field_at (drop at text.now) ≡ []) }
    ensures { outcome_of result ≡ value_at constant place (drop at text.now) }
{
    if constant {
        if text[at..].starts_with(b"\t0\n") {
            return Ok(false);
        }
        if text[at..].starts_with(b"\t1\n") {
            return Ok(true);
        }
        return Err(Refusal::WrongForm(place));
    }
    if text[at..].starts_with(b"\n") {
        return Ok(false);
    }
    Err(Refusal::WrongForm(place))
}

// The marks and that of the line at their position; else 1 or 14.
fn mark(text: &[u8], constant: bool, n: u64, read: MarksNext) -> Result<MarksNext, Refusal>
    requires { (read.next ≤ length text.now) × (n ≤ max_lines) × (read.place ≤ length text.now) × (starts_mark constant (line_at (drop read.next text.now)) ≡ true) }
    ensures { outcome_of result ≡ mark_next constant n read (drop read.next text.now) }
{
    let k = mark_line(
        text,
        read.next + word_size(constant),
        n,
        read.mask,
        read.place,
    )?;
    let set = value(text, k.next, constant, read.place)?;
    Ok(MarksNext {
        mask: read.mask | crate::gate::line(k.value),
        values: crate::file::fill::joined(read.values, k.value, set),
        place: read.place + 1,
        next: k.next + end_size(constant),
    })
}

// The marks of the group whose lines start at line `first` and at a position; else 1 or 14.
fn marks(
    text: &[u8],
    constant: bool,
    n: u64,
    first: u64,
    start: usize,
) -> Result<MarksNext, Refusal>
    requires { (start ≤ length text.now) × (n ≤ max_lines) × (first ≤ start) }
    ensures { outcome_of result ≡ group_next constant n first start text.now }
{
    let mut read = MarksNext {
        mask: 0,
        values: 0,
        place: first,
        next: start,
    };
    // Each mark says where the next line starts, so no iterator counts them.
    while starts(text, read.next, constant) {
        read = mark(text, constant, n, read)?;
    }
    Ok(read)
}

// The header of a text, and where the line after it starts; else 1, 2 or 14.
pub(crate) fn header(text: &[u8]) -> Result<HeaderNext, Refusal>
    ensures { outcome_of result ≡ header_next text.now }
{
    let lines = crate::file::scan::line_count(text)?;
    let next = lines.next;
    // Without marks no group is read, which takes less time.
    if !starts(text, next, true) {
        if !starts(text, next, false) {
            return Ok(HeaderNext {
                header: Header::unmarked(lines.value),
                place: 1,
                next,
            });
        }
    }
    let constants = marks(text, true, lines.value, 1, lines.next)?;
    let junk = marks(text, false, lines.value, constants.place, constants.next)?;
    Ok(HeaderNext {
        header: Header {
            lines: lines.value,
            constants: constants.mask,
            values: constants.values,
            junk: junk.mask,
        },
        place: junk.place,
        next: junk.next,
    })
}
