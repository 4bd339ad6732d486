// Reads two cascade files from standard input, one after the other, and writes the clauses that tell whether they differ, or a refusal. Where the input could not be read, writes `failed`. Says on standard error why it could not read or not write all.
#![tactic(auto)]

ghost use Rattle.std.specs.Prelude.{◌<◌, ◌≤◌, length};
ghost use Rattle.bits.specs.Lists.{Put};
ghost use Rattle.text.specs.Tomiter.{max_input, max_text, tomiter_text};

use std::io::Read;

// One byte more than an input may have.
const INPUT: usize = text::MAX_INPUT + 1;

// Writes what the program answers to an input, which always fits, and tells how many bytes it is.
fn answer(out: &mut [u8], input: &[u8]) -> usize
    requires { max_text ≤ length out.old }
    ensures { Put result out.new (tomiter_text input.now) out.old }
{
    text::tomiter(input, out).unwrap()
}

// Writes what the program answers to an input.
fn respond(rt: &(impl Print + Eprint), input: &[u8]) {
    let mut out = [0u8; text::MAX_TEXT];
    let size = answer(&mut out, input);
    streams::write(rt, &out[..size], b"tomiter: standard output");
}

// Reads the input and answers. The room holds more than an input may have, so that a longer one is told.
fn run(rt: &(impl Print + Eprint), input: &mut impl Read, room: &mut [u8])
    requires { max_input < length room.old }
{
    match streams::read_all(input, room) {
        Ok(taken) => respond(rt, &room[..taken]),
        Err(error) => streams::fail(rt, b"tomiter: standard input", &error),
    }
}

fn main(rt: HostRuntime) {
    let mut room = [0u8; INPUT];
    run(&rt, &mut rt.stdin(), &mut room);
}
