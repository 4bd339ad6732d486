// A clause list in words of 16 bits made one in clause words, and back.

ghost use Rattle.std.specs.Prelude.{◌≡◌, true, not, ◌≤◌, length, position};
ghost use Rattle.bits.specs.Lists.{over};
ghost use Rattle.circuit.specs.Outcome.{outcome_of, Yields};
ghost use Rattle.circuit.specs.Refusal.{word_too_wide};
ghost use Rattle.checking.specs.Each.{each_from, Every};
ghost use Rattle.checking.specs.Widths.{Narrow, is_narrow, widen_outcome, widen_buffer, narrow_outcome, narrow_buffer};

use crate::clauses::ClauseWord;
use circuit::refusal::Refusal;

// A word of a list that was stored in 16 bits.
pub type NarrowWord = i16;

// Puts words of 16 bits at the buffer's start.
fn put_wide(words: &[NarrowWord], out: &mut [ClauseWord])
    requires { length words.now ≤ length out.old }
    ensures { out.new ≡ over words.now out.old }
{
    for i in 0..words.len() {
        out[i] = ClauseWord::from(words[i]);
    }
}

// Whether 16 bits hold the word.
fn is_narrow(word: ClauseWord) -> bool
    ensures { result ≡ is_narrow word }
{
    NarrowWord::MIN as ClauseWord <= word && word <= NarrowWord::MAX as ClauseWord
}

// Whether 16 bits hold every word. The loop goes to the end, so that the compiler tests several words at once.
fn all_narrow(words: &[ClauseWord]) -> bool
    ensures { result ≡ true → Every Narrow words.now }
{
    let mut all = true;
    for i in 0..words.len() {
        all &= is_narrow(words[i]);
    }
    all
}

// The first word that 16 bits do not hold.
fn first_wide(words: &[ClauseWord]) -> Option<usize>
    ensures { result ≡ position (λ w. not (is_narrow w)) words.now }
{
    words.iter().position(|w| !is_narrow(*w))
}

// The number of words, all of which 16 bits hold; else 16.
fn check_narrow(words: &[ClauseWord]) -> Result<usize, Refusal>
    ensures { outcome_of result ≡ each_from is_narrow word_too_wide 0 words.now }
{
    if all_narrow(words) {
        return Ok(words.len());
    }
    match first_wide(words) {
        Some(i) => Err(Refusal::WordTooWide(i as u64)),
        None => Ok(words.len()),
    }
}

// Puts words that 16 bits hold at the buffer's start.
fn put_narrow(words: &[ClauseWord], out: &mut [NarrowWord])
    requires narrow_words { Every Narrow words.now }
    requires word_room { length words.now ≤ length out.old }
    ensures { out.new ≡ over words.now out.old }
{
    for i in 0..words.len() {
        out[i] = words[i] as NarrowWord;
    }
}

// The words in clause words at the buffer's start, and how many; else 10.
#[tactic(auto, unfolding(crate::specs::Widths::widen_outcome, crate::specs::Widths::widen_buffer))]
pub fn widen(words: &[NarrowWord], out: &mut [ClauseWord]) -> Result<usize, Refusal>
    ensures { Yields (outcome_of result) out.new (widen_outcome words.now (length out.old)) (widen_buffer words.now out.old) }
{
    if out.len() < words.len() {
        return Err(Refusal::NoRoom);
    }
    put_wide(words, out);
    Ok(words.len())
}

// The words in 16 bits at the buffer's start, and how many; else 16 or 10.
#[tactic(auto, unfolding(crate::specs::Widths::narrow_outcome, crate::specs::Widths::narrow_buffer))]
pub fn narrow(words: &[ClauseWord], out: &mut [NarrowWord]) -> Result<usize, Refusal>
    ensures { Yields (outcome_of result) out.new (narrow_outcome words.now (length out.old)) (narrow_buffer words.now out.old) }
{
    let size = check_narrow(words)?;
    if out.len() < size {
        return Err(Refusal::NoRoom);
    }
    put_narrow(words, out);
    Ok(size)
}
