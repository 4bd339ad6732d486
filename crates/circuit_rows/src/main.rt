// Runs of rows on gates and cascades: a line for each, with the state or the refusal's number and place.
#![tactic(auto)]

fn print_run(rt: &impl Print, lines: u64, words: &[u64], state: u64) {
    match circuit::run::run(lines, words, state) {
        Ok(output) => rows::print_row(rt, b"state ", &[state, output]),
        Err(why) => rows::print_row(rt, b"refused ", &[why.number(), why.place()]),
    }
}

// The answer, and then the buffer of eight words that held 1 to 8.
fn print_inverse(rt: &impl Print, lines: u64, words: &[u64]) {
    let mut out = [1u64, 2, 3, 4, 5, 6, 7, 8];
    match circuit::inverse::inverse(lines, words, &mut out) {
        Ok(gates) => rows::print_row(rt, b"gates ", &[gates as u64, 0]),
        Err(why) => rows::print_row(rt, b"refused ", &[why.number(), why.place()]),
    }
    rows::print_row(rt, b"", &out);
}

fn main(rt: HostRuntime) {
    // Document 01: t2+0+1, t2+0-1, t0.
    print_run(&rt, 3, &[3, 0, 2], 3);
    print_run(&rt, 3, &[3, 0, 2], 1);
    print_run(&rt, 3, &[1, 2, 2], 1);
    print_run(&rt, 3, &[1, 2, 2], 3);
    print_run(&rt, 1, &[0, 0, 0], 0);
    // On 64 lines: t62+63-0; the empty cascade; the first gate acts first: t1+0 t0.
    print_run(&rt, 64, &[9223372036854775808, 1, 62], 18446744073709551614);
    print_run(&rt, 64, &[], 18446744073709551615);
    print_run(&rt, 2, &[1, 0, 1, 0, 0, 0], 1);
    // Refusals 2, 11, 7 at the second gate, 9.
    print_run(&rt, 0, &[0, 0, 0], 0);
    print_run(&rt, 65, &[0, 0, 0], 0);
    print_run(&rt, 3, &[0, 0], 0);
    print_run(&rt, 3, &[0, 0, 0, 4, 0, 2], 9);
    print_run(&rt, 3, &[0, 0, 0], 8);
    // The inverse of t1+0 t0; 7; 10 with nine words.
    print_inverse(&rt, 2, &[1, 0, 1, 0, 0, 0]);
    print_inverse(&rt, 2, &[1, 0, 1, 0, 0, 2]);
    print_inverse(&rt, 2, &[1, 0, 1, 0, 0, 0, 0, 0, 1]);
}
