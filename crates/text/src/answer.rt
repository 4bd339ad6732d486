// Writing a comparison's text at the start of a buffer where it fits: how many bytes it is, or 10.

ghost use Rattle.std.specs.Prelude.{◌≡◌, ◌++◌, ◌+◌, ◌≤◌, length};
ghost use Rattle.circuit.specs.Outcome.{outcome_of, Yields};
ghost use Rattle.text.specs.Answers.{fit_outcome, fit_buffer};
ghost use Rattle.text.specs.Dimacs.{decimal, dimacs_of};
ghost use Rattle.text.specs.Plain.{plain_clauses};
ghost use Rattle.text.specs.FileOutcome.{numbers_text, refused_text};
ghost use Rattle.text.specs.private.Words.{stored_in, StoresList};
ghost use Rattle.text.specs.Compare.{compared_text};
ghost use Rattle.text.specs.private.Comparing.{of_compared, ComparedReady};

use crate::comparison::Compared;
use crate::refused::FileRefusal;
use checking::clauses::ClauseWord;
use circuit::refusal::Refusal;

// Writes a text that stands elsewhere.
#[tactic(auto, unfolding(crate::specs::Answers::fit_outcome, crate::specs::Answers::fit_buffer))]
fn fit_text(out: &mut [u8], text: &[u8]) -> Result<usize, Refusal>
    ensures { Yields (outcome_of result) out.new (fit_outcome text.now (length out.old)) (fit_buffer text.now out.old) }
{
    if out.len() < text.len() {
        return Err(Refusal::NoRoom);
    }
    Ok(crate::put::put(out, text))
}

// The digits of three numbers.
fn three_digits(a: u64, b: u64, c: u64) -> usize
    ensures count { result ≡ length (decimal a) + length (decimal b) + length (decimal c) }
    ensures few { result ≤ 60 }
{
    crate::plain::digits(a) + crate::plain::digits(b) + crate::plain::digits(c)
}

// Writes a word and three numbers, tab-parted, and an LF.
#[tactic(auto, unfolding(crate::specs::Answers::fit_outcome, crate::specs::Answers::fit_buffer))]
fn fit_three(out: &mut [u8], word: &[u8], a: u64, b: u64, c: u64) -> Result<usize, Refusal>
    ensures { Yields (outcome_of result) out.new (fit_outcome (word.now ++ numbers_text a b c) (length out.old)) (fit_buffer (word.now ++ numbers_text a b c) out.old) }
{
    if out.len() < word.len() + three_digits(a, b, c) + 3 {
        return Err(Refusal::NoRoom);
    }
    Ok(crate::put::put_three(out, word, a, b, c))
}

// Writes a refusal.
#[tactic(auto, unfolding(crate::specs::FileOutcome::refusal_text))]
pub(crate) fn fit_refusal(out: &mut [u8], r: FileRefusal) -> Result<usize, Refusal>
    ensures { Yields (outcome_of result) out.new (fit_outcome (refused_text r) (length out.old)) (fit_buffer (refused_text r) out.old) }
{
    fit_three(
        out,
        b"refused\t",
        r.why.number(),
        r.file.number(),
        r.why.place(),
    )
}

// Writes the plain clauses that words store, over so many variables.
#[tactic(auto, unfolding(crate::specs::Answers::fit_outcome, crate::specs::Answers::fit_buffer))]
fn fit_clauses(out: &mut [u8], variables: u64, words: &[ClauseWord]) -> Result<usize, Refusal>
    requires { StoresList words.now }
    ensures { Yields (outcome_of result) out.new (fit_outcome (dimacs_of variables (plain_clauses (stored_in words.now))) (length out.old)) (fit_buffer (dimacs_of variables (plain_clauses (stored_in words.now))) out.old) }
{
    let sizes = crate::plain::list_sizes(words);
    let bytes = sizes.bytes;
    let clauses = sizes.clauses;
    if out.len() < three_digits(variables, clauses, 0) + 7 + bytes {
        return Err(Refusal::NoRoom);
    }
    Ok(crate::plain::put_list(out, variables, clauses, words))
}

// Writes what a comparison answers.
#[tactic(auto, unfolding(crate::specs::Compare::differ_text))]
pub(crate) fn fit_answer(
    out: &mut [u8],
    answer: Result<Compared, FileRefusal>,
    clauses: &[ClauseWord],
) -> Result<usize, Refusal>
    requires { ComparedReady answer clauses.now }
    ensures { Yields (outcome_of result) out.new (fit_outcome (compared_text (of_compared answer clauses.now)) (length out.old)) (fit_buffer (compared_text (of_compared answer clauses.now)) out.old) }
{
    match answer {
        Ok(Compared::Reduction) => fit_text(out, b"equal\treduction\n"),
        Ok(Compared::Sweep) => fit_text(out, b"equal\tsweep\n"),
        Ok(
            Compared::Differ {
                state,
                first,
                second,
            },
        ) => fit_three(out, b"differ\t", state, first, second),
        Ok(Compared::Clauses(totals)) => {
            let end = totals.words as usize;
            fit_clauses(out, totals.variables, &clauses[..end])
        }
        Err(r) => fit_refusal(out, r),
    }
}
