// One input given to the cascades of two files.

ghost use Rattle.std.specs.Prelude.{cond, ◌≡◌, [], ◌∷◌, ◌++◌, ◌+◌, ◌*◌, ◌≤◌, ◌<◌, ◌==◌, length};
ghost use Rattle.bits.specs.Lists.{Put};
ghost use Rattle.circuit.specs.Gate.{max_lines};
ghost use Rattle.circuit.specs.Outcome.{outcome_of, Yields};
ghost use Rattle.circuit.specs.Text.{tab, line_feed};
ghost use Rattle.circuit.specs.Words.{gates_of};
ghost use Rattle.text.specs.Answers.{fit_outcome, fit_buffer};
ghost use Rattle.text.specs.Compare.{file_words, differ_word};
ghost use Rattle.text.specs.CheckInput.{state_text, state_read, agree_word, outputs_text, checked_on, checked, checked_text};
ghost use Rattle.text.specs.FileOutcome.{answer_of};
ghost use Rattle.text.specs.private.Checking.{of_state, CheckedReady, SaysChecked};

use crate::pair::PairRead;
use crate::refused::FileRefusal;
use circuit::header::Header;
use circuit::refusal::Refusal;

// The header of two cascades, and their outputs on a state.
#[derive(Clone, Copy, Debug, PartialEq, Eq)]
pub(crate) struct Outputs {
    pub header: Header,
    pub first: u64,
    pub second: u64,
}

// The state of n lines that a text spells, from its last character back.
fn read_state(n: u64, text: &[u8]) -> Option<u64>
    requires { n ≤ max_lines }
    ensures { of_state result ≡ state_read n text.now }
{
    if text.len() as u64 != n {
        return None;
    }
    let mut x = 0;
    for b in text.iter().rev() {
        if *b < b'0' || b'1' < *b {
            return None;
        }
        x = 2 * x + u64::from(*b - b'0');
    }
    Some(x)
}

// Writes a state of n lines.
fn put_state(out: &mut [u8], n: u64, x: u64) -> usize
    requires { n ≤ length out.old }
    ensures { Put result out.new (state_text n x) out.old }
{
    let mut left = x;
    for i in 0..n as usize {
        out[i] = b'0' + (left % 2) as u8;
        left /= 2;
    }
    n as usize
}

// Writes a tab and a state.
#[tactic(auto, using(crate::proofs::put::Laws::then_put, crate::proofs::input::Laws::state_long))]
fn put_output(out: &mut [u8], n: u64, x: u64) -> usize
    requires { n + 1 ≤ length out.old }
    ensures { Put result out.new (tab ∷ state_text n x) out.old }
{
    let at = crate::put::put(out, b"\t");
    at + put_state(&mut out[at..], n, x)
}

// Writes whether two outputs differ.
fn put_verdict(out: &mut [u8], agree: bool) -> usize
    requires { 6 ≤ length out.old }
    ensures { Put result out.new (cond agree agree_word differ_word) out.old }
{
    if agree {
        return crate::put::put(out, b"agree");
    }
    crate::put::put(out, b"differ")
}

// Writes the same and both outputs, each after a tab, and an LF.
#[tactic(auto, using(crate::proofs::input::Laws::parts, crate::proofs::input::Laws::state_long))]
fn put_checked(out: &mut [u8], h: Header, first: u64, second: u64) -> usize
    requires { length (outputs_text h first second) ≤ length out.old }
    ensures { Put result out.new (outputs_text h first second) out.old }
{
    let n = h.lines;
    let mut at = put_verdict(out, h.alike(first, second));
    at += put_output(&mut out[at..], n, first);
    at += put_output(&mut out[at..], n, second);
    at + crate::put::put(&mut out[at..], b"\n")
}

// Writes the same where it fits. The numbers stay apart, as the definition of the text has them.
#[tactic(auto, unfolding(crate::specs::Answers::fit_outcome, crate::specs::Answers::fit_buffer))]
fn fit_outputs(out: &mut [u8], h: Header, first: u64, second: u64) -> Result<usize, Refusal>
    requires { h.lines ≤ max_lines }
    ensures { Yields (outcome_of result) out.new (fit_outcome (outputs_text h first second) (length out.old)) (fit_buffer (outputs_text h first second) out.old) }
{
    let size = 2 * h.lines + 8 + !h.alike(first, second) as u64;
    if (out.len() as u64) < size {
        return Err(Refusal::NoRoom);
    }
    Ok(put_checked(out, h, first, second))
}

// The outputs of two cascades on the state that a text spells; else 9.
fn check_pair(pair: PairRead, state: &[u8]) -> Result<Outputs, FileRefusal>
    ensures { SaysChecked result (checked_on pair.entry.first.header (gates_of pair.entry.first.words.now) (gates_of pair.entry.second.words.now) (state_read pair.entry.first.header.lines state.now)) }
{
    let PairRead { first, second } = pair;
    match read_state(first.header.lines, state) {
        Some(x) => {
            if !first.header.permits(x) {
                return Err(FileRefusal::both(Refusal::BadState(0)));
            }
            Ok(Outputs {
                header: first.header,
                first: circuit::run::run_tested(first.words, x),
                second: circuit::run::run_tested(second.words, x),
            })
        }
        None => Err(FileRefusal::both(Refusal::BadState(0))),
    }
}

// The outputs of the cascades of two files on the state that a text spells; else what is wrong.
#[tactic(auto, unfolding(crate::specs::CheckInput::checked))]
pub(crate) fn check_files(
    first: &[u8],
    second: &[u8],
    state: &[u8],
    a: &mut [u64],
    b: &mut [u64],
) -> Result<Outputs, FileRefusal>
    requires first_room { file_words ≤ length a.old }
    requires second_room { file_words ≤ length b.old }
    ensures { SaysChecked result (checked first.now second.now state.now) }
{
    check_pair(PairRead::read(first, second, a, b)?, state)
}

// Writes what the check answers.
pub(crate) fn fit_checked(
    out: &mut [u8],
    answer: Result<Outputs, FileRefusal>,
) -> Result<usize, Refusal>
    requires { CheckedReady answer }
    ensures { Yields (outcome_of result) out.new (fit_outcome (checked_text (answer_of answer)) (length out.old)) (fit_buffer (checked_text (answer_of answer)) out.old) }
{
    match answer {
        Ok(outputs) => fit_outputs(out, outputs.header, outputs.first, outputs.second),
        Err(r) => crate::answer::fit_refusal(out, r),
    }
}
