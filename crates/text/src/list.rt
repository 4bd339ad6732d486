// From the bytes of two cascade files to their clause list.

ghost use Rattle.std.specs.Prelude.{◌≡◌, length};
ghost use Rattle.circuit.specs.Words.{gates_of};
ghost use Rattle.text.specs.Tomiter.{max_words, pair_verdict, verdict};
ghost use Rattle.text.specs.private.Lists.{Delivers};

use crate::pair::{CascadeRead, StartRead};
use crate::refused::{File, FileRefusal};
use checking::clauses::{ClauseWord, Totals};
use circuit::gate::Gate;
use circuit::refusal::Refusal;

// The clause list of two cascades; else 8, 15 or 10.
fn list_pair(
    first: CascadeRead,
    second: CascadeRead,
    clauses: &mut [ClauseWord],
) -> Result<Totals, FileRefusal>
    requires { length clauses.old ≡ max_words }
    ensures { Delivers result clauses.new (pair_verdict first.entry.header (gates_of first.entry.words.now) second.entry.header (gates_of second.entry.words.now)) }
{
    File::Both.of(checking::pair::emit(
        first.header,
        first.words,
        second.header,
        second.words,
        clauses,
    ))
}

// The clause list of the two files of an input; else what is wrong with it.
pub(crate) fn list(input: &[u8], clauses: &mut [ClauseWord]) -> Result<Totals, FileRefusal>
    requires { length clauses.old ≡ max_words }
    ensures { Delivers result clauses.new (verdict input.now) }
{
    if crate::MAX_INPUT < input.len() {
        return Err(FileRefusal::both(Refusal::NoRoom));
    }
    let mut a = [0u64; Gate::WORDS * crate::MAX_INPUT_GATES];
    let mut b = [0u64; Gate::WORDS * crate::MAX_INPUT_GATES];
    let first = File::First.of(StartRead::read(input, crate::MAX_INPUT_GATES, &mut a))?;
    let second = File::Second.of(CascadeRead::read(
        &input[first.taken..],
        crate::MAX_INPUT_GATES,
        &mut b,
    ))?;
    list_pair(first.cascade, second, clauses)
}
