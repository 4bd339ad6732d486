// The text of a clause list, and the program's whole job on slices.
#![tactic(auto)]

ghost use Rattle.text.specs.Tomiter.{WritesText};
ghost use Rattle.std.specs.Prelude.{◌≡◌, length};
ghost use Rattle.text.specs.Compare.{rooms, RoomShort, compare_outcome, compare_buffer};
ghost use Rattle.text.specs.CheckInput.{InputRoomShort, input_outcome, input_buffer};
ghost use Rattle.circuit.specs.Outcome.{outcome_of};
ghost use Rattle.text.specs.Answers.{Serves};
ghost use Rattle.text.specs.Laws.{Laws};

use checking::clauses::ClauseWord;
use circuit::refusal::Refusal;

mod answer;
mod comparison;
mod dimacs;
mod input;
mod list;
mod pair;
mod plain;
mod program;
mod put;
mod refused;
mod stored;

// The bytes of the longest input, the gates of each of its files, the words of its clause list, and the bytes of the longest text.
pub const MAX_INPUT: usize = 65536;

pub const MAX_INPUT_GATES: usize = 1024;

pub const MAX_WORDS: usize = 16384;

pub const MAX_TEXT: usize = 98321;

// The bytes of the longest file of a comparison, its gates, the words of its cascade, of a miter and of the longest clause list, and the bytes of the longest text.
pub const MAX_FILE: usize = 524288;

pub const MAX_FILE_GATES: usize = 8192;

pub const FILE_WORDS: usize = 24576;

pub const MITER_WORDS: usize = 49152;

pub const MAX_LIST: usize = 300000;

pub const MAX_COMPARED: usize = 2938867;

// The bytes of the longest text of an input that was checked.
pub const MAX_CHECKED: usize = 137;

// What the program writes for an input of two cascade files, at the buffer's start; else 10.
pub fn tomiter(input: &[u8], out: &mut [u8]) -> Result<usize, Refusal>
    ensures { WritesText input.now out.old (outcome_of result) out.new }
{
    if MAX_TEXT <= out.len() {
        return Ok(crate::program::put_text(out, input));
    }
    let mut text = [0u8; MAX_TEXT];
    let size = crate::program::put_text(&mut text, input);
    if out.len() < size {
        return Err(Refusal::NoRoom);
    }
    Ok(crate::put::put(out, &text[..size]))
}

// The rooms are slices, whose lengths the functions inside require: with arrays in their place (`first_chunk_mut`) the proofs of the part that is returned and of the rooms that a refusal leaves did not close.
// Compares the cascades of two files and writes the verdict, or clauses for a solver, at the start of `out`; else 10.
// The words of the cascades, of their miter and of the clauses stand in the rooms that follow; what these hold afterwards is no answer, and where one is too short they are as they were.
#[tactic(auto, unfolding(crate::specs::Compare::compare_outcome, crate::specs::Compare::compare_buffer))]
pub fn compare(
    first: &[u8],
    second: &[u8],
    out: &mut [u8],
    a: &mut [u64],
    b: &mut [u64],
    miter: &mut [u64],
    clauses: &mut [ClauseWord],
) -> Result<usize, Refusal>
    ensures { Serves (outcome_of result) out.new (compare_outcome first.now second.now (rooms (length a.old) (length b.old) (length miter.old) (length clauses.old)) (length out.old)) (compare_buffer first.now second.now (rooms (length a.old) (length b.old) (length miter.old) (length clauses.old)) out.old) (RoomShort (rooms (length a.old) (length b.old) (length miter.old) (length clauses.old))) ((a.new ≡ a.old) × (b.new ≡ b.old) × (miter.new ≡ miter.old) × (clauses.new ≡ clauses.old)) }
{
    if a.len() < FILE_WORDS {
        return Err(Refusal::NoRoom);
    }
    if b.len() < FILE_WORDS {
        return Err(Refusal::NoRoom);
    }
    if miter.len() < MITER_WORDS {
        return Err(Refusal::NoRoom);
    }
    if clauses.len() < MAX_LIST {
        return Err(Refusal::NoRoom);
    }
    let answer = crate::comparison::compare_files(first, second, a, b, miter, clauses);
    crate::answer::fit_answer(out, answer, clauses)
}

// Gives an input, a character 0 or 1 for each line, to the cascades of two files, and writes `differ` or `agree` and both outputs at the start of `out`; else 10.
// The words of the cascades stand in the rooms that follow; what these hold afterwards is no answer, and where one is too short they are as they were.
#[tactic(auto, unfolding(crate::specs::CheckInput::input_outcome, crate::specs::CheckInput::input_buffer))]
pub fn check_input(
    first: &[u8],
    second: &[u8],
    state: &[u8],
    out: &mut [u8],
    a: &mut [u64],
    b: &mut [u64],
) -> Result<usize, Refusal>
    ensures { Serves (outcome_of result) out.new (input_outcome first.now second.now state.now (length a.old) (length b.old) (length out.old)) (input_buffer first.now second.now state.now (length a.old) (length b.old) out.old) (InputRoomShort (length a.old) (length b.old)) ((a.new ≡ a.old) × (b.new ≡ b.old)) }
{
    if a.len() < FILE_WORDS {
        return Err(Refusal::NoRoom);
    }
    if b.len() < FILE_WORDS {
        return Err(Refusal::NoRoom);
    }
    let answer = crate::input::check_files(first, second, state, a, b);
    crate::input::fit_checked(out, answer)
}

// Has no effect: its contract is the record of this crate's laws.
pub fn laws()
    ensures { Laws }
{}
