// Runs of rows on cascade files: a line for each, with what was read or the refusal's number and place.
#![tactic(auto)]

ghost use Rattle.std.specs.Prelude.{◌≤◌, length};

use circuit::header::Header;

// Lines, gates and bytes taken.
fn print_read(rt: &impl Print, text: &[u8]) {
    let mut out = [0u64; 49152];
    match circuit::file::read(text, &mut out) {
        Ok(counts) => rows::print_row(
            rt,
            b"read ",
            &[
                counts.header.lines,
                counts.gates as u64,
                counts.taken as u64,
            ],
        ),
        Err(why) => rows::print_row(rt, b"refused ", &[why.number(), why.place()]),
    }
}

// Copies the word to the start of the buffer where it fits, and tells how many bytes that are.
fn put(out: &mut [u8], word: &[u8]) -> usize
    ensures { result ≤ length out.old }
{
    if out.len() < word.len() {
        return 0;
    }
    out[..word.len()].copy_from_slice(word);
    word.len()
}

// Puts so many gate lines, and tells how many bytes they are.
fn put_gates(out: &mut [u8], gates: usize) -> usize
    ensures { result ≤ length out.old }
{
    let mut at = 0;
    for _ in 0..gates {
        at += put(&mut out[at..], b"g\t0\n");
    }
    at
}

// Puts a header and so many gate lines, and tells how many bytes they are.
fn put_start(out: &mut [u8], gates: usize) -> usize
    ensures { result ≤ length out.old }
{
    let at = put(&mut out[0..], b"lines\t64\n");
    at + put_gates(&mut out[at..], gates)
}

// Puts a header, so many gate lines and then these bytes, and tells how many bytes that are.
fn put_long(out: &mut [u8], gates: usize, last: &[u8]) -> usize
    ensures { result ≤ length out.old }
{
    let at = put_start(&mut out[0..], gates);
    at + put(&mut out[at..], last)
}

// A text of so many gate lines on 64 lines, and then these bytes.
fn print_long(rt: &impl Print, gates: usize, last: &[u8]) {
    let mut text = [0u8; 65600];
    let at = put_long(&mut text, gates, last);
    if at <= 65600 {
        print_read(rt, &text[0..at]);
    }
}

// The text of a cascade in a buffer of 32 bytes.
fn print_write(rt: &impl Print, lines: u64, words: &[u64]) {
    let mut out = [0u8; 32];
    match circuit::file::write(Header::unmarked(lines), words, &mut out) {
        Ok(written) => {
            if written <= 32 {
                let _ = rt.write_all(&out[0..written]);
            }
        }
        Err(why) => rows::print_row(rt, b"refused ", &[why.number(), why.place()]),
    }
}

fn main(rt: HostRuntime) {
    // The smallest cascade; 64 lines; what follows `end` is not read.
    print_read(&rt, b"lines\t1\nend\n");
    print_read(&rt, b"lines\t64\ng\t63\t+0\t-9\t+10\t-62\nend\n");
    print_read(&rt, b"lines\t2\ng\t1\t+0\nend\nlines\t2\nend\n");
    // 65 lines are 2, 100 are 1.
    print_read(&rt, b"lines\t65\nend\n");
    print_read(&rt, b"lines\t100\nend\n");
    // A missing line has the next index.
    print_read(&rt, b"lines\t2\n");
    // 3 before a later 1; 4; 5.
    print_read(&rt, b"lines\t4\ng\t9\t?\nend\n");
    print_read(&rt, b"lines\t2\ng\t0\t+0\nend\n");
    print_read(&rt, b"lines\t9\ng\t0\t+3\t-3\nend\n");
    // 16,384 gate lines are read; the 16,385th is 6.
    print_long(&rt, 16384, b"end\n");
    print_long(&rt, 16385, b"end\n");
    // The text of t1+0 t0 on two lines; refusal 7; 10 for a text of 33 bytes.
    print_write(&rt, 2, &[1, 0, 1, 0, 0, 0]);
    print_write(&rt, 2, &[0, 0, 0, 1, 0, 0]);
    print_write(&rt, 64, &[1073742849, 0, 63, 0, 0, 0]);
}
