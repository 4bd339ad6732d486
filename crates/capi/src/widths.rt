// cascade_widen and cascade_narrow.

ghost use Rattle.std.specs.Prelude.{◌≡◌, length};
ghost use Rattle.circuit.specs.Outcome.{outcome_of, Yields};
ghost use Rattle.checking.specs.Widths.{widen_outcome, widen_buffer, narrow_outcome, narrow_buffer};
ghost use Rattle.capi.specs.Widths.{words_answer};

use circuit::refusal::Refusal;

#[repr(C)]
#[derive(Clone, Copy, Debug, PartialEq, Eq)]
pub struct CascadeWordsAnswer {
    pub number: u64,
    pub place: u64,
    pub words: u64,
}

impl From<Result<usize, Refusal>> for CascadeWordsAnswer {
    ghost from_gives = { λ answer c. c ≡ words_answer (outcome_of answer) };

    fn from(answer: Result<usize, Refusal>) -> CascadeWordsAnswer {
        match answer {
            Ok(words) => CascadeWordsAnswer {
                number: 0,
                place: 0,
                words: words as u64,
            },
            Err(why) => CascadeWordsAnswer {
                number: why.number(),
                place: why.place(),
                words: 0,
            },
        }
    }
}

#[unsafe(no_mangle)]
pub extern "C" fn cascade_widen(words: &[i16], out: &mut [i32]) -> CascadeWordsAnswer
    ensures { Yields result out.new (words_answer (widen_outcome words.now (length out.old))) (widen_buffer words.now out.old) }
{
    checking::widths::widen(words, out).into()
}

#[unsafe(no_mangle)]
pub extern "C" fn cascade_narrow(words: &[i32], out: &mut [i16]) -> CascadeWordsAnswer
    ensures { Yields result out.new (words_answer (narrow_outcome words.now (length out.old))) (narrow_buffer words.now out.old) }
{
    checking::widths::narrow(words, out).into()
}
