// Compares the cascades of the two files that its arguments name, and writes the verdict, clauses for a solver, or a refusal. Where a file could not be read, writes `failed`. Says on standard error why it could not read or not write all.
#![tactic(auto)]

ghost use Rattle.std.specs.Prelude.{◌<◌, ◌≤◌, length};
ghost use Rattle.bits.specs.Lists.{Put};
ghost use Rattle.text.specs.Compare.{max_file, max_list, max_compared, file_words, miter_words, compare_text};

use checking::clauses::ClauseWord;
use std::rt::{Env, Files};

// One byte more than a file may have.
const FILE: usize = text::MAX_FILE + 1;

// Writes what the program answers to two files, which always fits, and tells how many bytes it is.
fn answer(
    out: &mut [u8],
    first: &[u8],
    second: &[u8],
    a: &mut [u64],
    b: &mut [u64],
    miter: &mut [u64],
    clauses: &mut [ClauseWord],
) -> usize
    requires out_room { max_compared ≤ length out.old }
    requires first_room { file_words ≤ length a.old }
    requires second_room { file_words ≤ length b.old }
    requires miter_room { miter_words ≤ length miter.old }
    requires clause_room { max_list ≤ length clauses.old }
    ensures { Put result out.new (compare_text first.now second.now) out.old }
{
    text::compare(first, second, out, a, b, miter, clauses).unwrap()
}

// Rooms for a file and for the text. Of their own, as the prover cannot look through arrays of these sizes in the function that uses them.
fn file_room() -> [u8; FILE] {
    [0u8; FILE]
}

fn text_room() -> [u8; text::MAX_COMPARED] {
    [0u8; text::MAX_COMPARED]
}

// Writes what the program answers to two files.
fn respond(rt: &(impl Print + Eprint), first: &[u8], second: &[u8]) {
    let mut a = [0u64; text::FILE_WORDS];
    let mut b = [0u64; text::FILE_WORDS];
    let mut miter = [0u64; text::MITER_WORDS];
    let mut clauses: [ClauseWord; text::MAX_LIST] = [0; text::MAX_LIST];
    let mut out = text_room();
    let size = answer(
        &mut out,
        first,
        second,
        &mut a,
        &mut b,
        &mut miter,
        &mut clauses,
    );
    streams::write(rt, &out[..size], b"compare: standard output");
}

// Reads both files and answers. The rooms hold more than a file may have, so that a longer file is told.
fn run(rt: &(impl Env + Files + Print + Eprint), first: &mut [u8], second: &mut [u8])
    requires first_longer { max_file < length first.old }
    requires second_longer { max_file < length second.old }
{
    if let Ok((a, b)) = streams::read_two(rt, first, second) {
        respond(rt, &first[..a], &second[..b]);
    }
}

fn main(rt: HostRuntime) {
    let mut first = file_room();
    let mut second = file_room();
    run(&rt, &mut first, &mut second);
}
