// Gives the input that its third argument spells to the cascades of the two files that the others name, and writes whether they differ on it, with both outputs, or a refusal. Where a file could not be read, writes `failed`. Says on standard error why it could not read or not write all.
#![tactic(auto)]

ghost use Rattle.std.specs.Prelude.{◌<◌, ◌≤◌, length};
ghost use Rattle.bits.specs.Lists.{Put};
ghost use Rattle.text.specs.Compare.{max_file, file_words};
ghost use Rattle.text.specs.CheckInput.{max_checked, check_text};

use std::rt::{Env, Files};

// One byte more than a file may have, and than a state may have.
const FILE: usize = text::MAX_FILE + 1;

const STATE: usize = 65;

// Writes what the program answers to two files and an input, which always fits, and tells how many bytes it is.
fn answer(
    out: &mut [u8],
    first: &[u8],
    second: &[u8],
    state: &[u8],
    a: &mut [u64],
    b: &mut [u64],
) -> usize
    requires out_room { max_checked ≤ length out.old }
    requires first_room { file_words ≤ length a.old }
    requires second_room { file_words ≤ length b.old }
    ensures { Put result out.new (check_text first.now second.now state.now) out.old }
{
    text::check_input(first, second, state, out, a, b).unwrap()
}

// Writes what the program answers to two files and an input.
fn respond(rt: &(impl Print + Eprint), first: &[u8], second: &[u8], state: &[u8]) {
    let mut a = [0u64; text::FILE_WORDS];
    let mut b = [0u64; text::FILE_WORDS];
    let mut out = [0u8; text::MAX_CHECKED];
    let size = answer(&mut out, first, second, state, &mut a, &mut b);
    streams::write(rt, &out[..size], b"check_input: standard output");
}

// Goes on with the files; an argument that is longer than a state is taken for an empty one, which is none.
fn with_files(rt: &(impl Env + Print + Eprint), first: &[u8], second: &[u8]) {
    let mut state = [0u8; STATE];
    let size = rt.arg(3, &mut state).unwrap_or(0);
    respond(rt, first, second, &state[..size]);
}

// A room for a file. Of its own, as the prover cannot look through an array of this size in the function that uses it.
fn file_room() -> [u8; FILE] {
    [0u8; FILE]
}

// Reads both files and answers. The rooms hold more than a file may have, so that a longer file is told.
fn run(rt: &(impl Env + Files + Print + Eprint), first: &mut [u8], second: &mut [u8])
    requires first_longer { max_file < length first.old }
    requires second_longer { max_file < length second.old }
{
    if let Ok((a, b)) = streams::read_two(rt, first, second) {
        with_files(rt, &first[..a], &second[..b]);
    }
}

fn main(rt: HostRuntime) {
    let mut first = file_room();
    let mut second = file_room();
    run(&rt, &mut first, &mut second);
}
