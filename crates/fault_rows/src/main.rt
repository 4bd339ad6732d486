// Faults and differences of the network 3_17, without marks and with marks: a line for each answer, and a line for the masks.
#![tactic(auto)]

use circuit::header::Header;

fn print_first_difference(rt: &impl Print, ha: Header, a: &[u64], hb: Header, b: &[u64]) {
    match checking::compare::first_difference(ha, a, hb, b) {
        Ok(Some(state)) => rows::print_row(rt, b"first difference ", &[state, 0]),
        Ok(None) => {
            let _ = rt.write_all(b"none\n");
        }
        Err(why) => rows::print_row(rt, b"refused ", &[why.number(), why.place()]),
    }
}

fn print_differs(rt: &impl Print, h: Header, a: &[u64], b: &[u64], state: u64) {
    match checking::compare::differs(h, a, h, b, state) {
        Ok(true) => rows::print_row(rt, b"differ ", &[state, 0]),
        Ok(false) => rows::print_row(rt, b"agree ", &[state, 0]),
        Err(why) => rows::print_row(rt, b"refused ", &[why.number(), why.place()]),
    }
}

// The answer, and then the buffer of thirteen words that held 9.
fn print_masks(rt: &impl Print, h: Header, suspect: &[u64], reference: &[u64], states: &[u64]) {
    let mut out = [9u64; 13];
    match checking::faults::fault_masks(h, suspect, h, reference, states, &mut out) {
        Ok(gates) => rows::print_row(rt, b"gates ", &[gates as u64, 0]),
        Err(why) => rows::print_row(rt, b"refused ", &[why.number(), why.place()]),
    }
    rows::print_row(rt, b"", &out);
}

// The benchmark 3_17 gives 7, 1, 4, 3, 0, 2, 6, 5 on the states 0 to 7 (known, not from our documents);
// in document 002 its first gates are t1+0 t0+1+2. The suspect lacks +1 in the second. By document 002 two states differ, and
// two of the six gates remain. On both states line 1 comes out alike, and lines 0 and 2 do not.
fn main(rt: HostRuntime) {
    let reference = [1u64, 0, 1, 6, 0, 0, 0, 0, 2, 4, 0, 1, 1, 0, 2, 6, 0, 0];
    let suspect = [1u64, 0, 1, 4, 0, 0, 0, 0, 2, 4, 0, 1, 1, 0, 2, 6, 0, 0];
    let unmarked = Header::unmarked(3);
    print_first_difference(&rt, unmarked, &suspect, unmarked, &reference);
    print_first_difference(&rt, unmarked, &reference, unmarked, &reference);
    print_differs(&rt, unmarked, &suspect, &reference, 4);
    print_differs(&rt, unmarked, &suspect, &reference, 5);
    print_differs(&rt, unmarked, &suspect, &reference, 8);
    // All states on which the two differ; the first of them; none.
    print_masks(&rt, unmarked, &suspect, &reference, &[4, 7]);
    print_masks(&rt, unmarked, &suspect, &reference, &[4]);
    print_masks(&rt, unmarked, &suspect, &reference, &[]);
    // 12 at the second state; 9 at the third before 12; all failing states on four lines.
    print_masks(&rt, unmarked, &suspect, &reference, &[4, 5, 7]);
    print_masks(&rt, unmarked, &suspect, &reference, &[4, 5, 8]);
    print_masks(
        &rt,
        Header::unmarked(4),
        &suspect,
        &reference,
        &[4, 7, 12, 15],
    );
    // Line 0 is the constant 1: 7 is the first difference, and 4 breaks the constant.
    let constant = Header {
        constants: 1,
        values: 1,
        ..unmarked
    };
    print_first_difference(&rt, constant, &suspect, constant, &reference);
    print_differs(&rt, constant, &suspect, &reference, 7);
    print_differs(&rt, constant, &suspect, &reference, 5);
    print_differs(&rt, constant, &suspect, &reference, 4);
    // The masks of state 7; 9 at the second state before 12 at the first.
    print_masks(&rt, constant, &suspect, &reference, &[7]);
    print_masks(&rt, constant, &suspect, &reference, &[5, 4]);
    // Line 0 is junk, and then line 2 too: only then no line that counts differs.
    let one_left_out = Header {
        junk: 1,
        ..unmarked
    };
    print_first_difference(&rt, one_left_out, &suspect, one_left_out, &reference);
    print_masks(&rt, one_left_out, &suspect, &reference, &[4, 7]);
    let both_left_out = Header {
        junk: 5,
        ..unmarked
    };
    print_first_difference(&rt, both_left_out, &suspect, both_left_out, &reference);
    print_differs(&rt, both_left_out, &suspect, &reference, 4);
    print_masks(&rt, both_left_out, &suspect, &reference, &[4, 7]);
    // Both, on one line: 7 alone is left, on line 2.
    let tied = Header {
        junk: 1,
        ..constant
    };
    print_first_difference(&rt, tied, &suspect, tied, &reference);
    // 14 for a mark on line 3 and for a value on a line that is no constant; 15 for other marks; 8 before 15.
    let outside = Header {
        junk: 8,
        ..unmarked
    };
    print_first_difference(&rt, outside, &suspect, unmarked, &reference);
    let value = Header {
        values: 1,
        ..unmarked
    };
    print_first_difference(&rt, unmarked, &suspect, value, &reference);
    print_first_difference(&rt, unmarked, &suspect, one_left_out, &reference);
    print_first_difference(&rt, constant, &suspect, Header::unmarked(4), &reference);
}
