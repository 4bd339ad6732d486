// From two cascades to clauses, with lists of calls on their miter: for each the answer and then the miter's buffer.
#![tactic(auto)]

use checking::check::Call;
use checking::clauses::{ClauseWord, Totals};
use circuit::refusal::Refusal;

// The variables, clauses and words, or a refusal's number and place; then the buffer of thirteen words that held 9.
fn print_answer(rt: &impl Print, answer: Result<Totals, Refusal>, room: &[u64; 13]) {
    match answer {
        Ok(totals) => {
            rows::print_row(
                rt,
                b"clauses ",
                &[totals.variables, totals.clauses, totals.words],
            );
        }
        Err(why) => {
            rows::print_row(rt, b"refused ", &[why.number(), why.place()]);
        }
    }
    rows::print_row(rt, b"", room);
}

// The calls as words, two each.
fn print_check(
    rt: &impl Print,
    na: u64,
    a: &[u64],
    nb: u64,
    b: &[u64],
    calls: &[u64],
    out: &mut [ClauseWord],
) {
    let mut room = [9u64; 13];
    let answer = checking::check::check(na, a, nb, b, calls, &mut room, out);
    print_answer(rt, answer, &room);
}

// One call, and both cascades on 3 lines.
fn print_call(rt: &impl Print, a: &[u64], b: &[u64], call: Call, out: &mut [ClauseWord]) {
    let mut room = [9u64; 13];
    let answer = checking::check::check_calls(3, a, 3, b, &[call], &mut room, out);
    print_answer(rt, answer, &room);
}

// A is t2+0+1 t1+2, and B is t1+2.
fn main(rt: HostRuntime) {
    let a = [3u64, 0, 2, 4, 0, 1];
    let b = [4u64, 0, 1];
    let mut out: [ClauseWord; 64] = [0; 64];
    // No call: the clauses of the miter t2+0+1 t1+2 t1+2.
    print_check(&rt, 3, &a, 3, &b, &[], &mut out);
    // Steps refused with 2 and with 7; a step that takes out t1+2 t1+2; a step that answers none; a reduction refused with 7, and one that finds nothing. A last word alone is no call.
    let calls = [0u64, 65, 0, 2, 0, 3, 0, 3, 1, 1, 1, 64, 0];
    print_check(&rt, 3, &a, 3, &b, &calls, &mut out);
    // A and A: the reduction leaves no gate.
    print_check(&rt, 3, &a, 3, &a, &[1, 3], &mut out);
    // Rows of T-01, a step each: t2+0 passes t1+2-0 in t2+0 t1+2-0 t2+0 (against t1+2-0), and not t1+2 in t2+0 t1+2 t2+0 (against no gate).
    let passing = [1, 0, 2, 4, 1, 1, 1, 0, 2];
    print_call(&rt, &passing, &[4, 1, 1], Call::StepOn(3), &mut out);
    let blocked = [1, 0, 2, 4, 0, 1, 1, 0, 2];
    print_call(&rt, &blocked, &[], Call::StepOn(3), &mut out);
    // 8 and 7 of the miter; 10 of the miter and of the emission.
    print_check(&rt, 3, &a, 4, &b, &calls, &mut out);
    print_check(&rt, 3, &a, 3, &[4, 0, 3], &calls, &mut out);
    print_check(
        &rt,
        3,
        &a,
        3,
        &[4, 0, 1, 4, 0, 1, 4, 0, 1],
        &calls,
        &mut out,
    );
    let mut short: [ClauseWord; 33] = [0; 33];
    print_check(&rt, 3, &a, 3, &b, &calls, &mut short);
}
