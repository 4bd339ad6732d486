// What the programs of rows print. This crate knows no cascade, so each program says how a refusal or a run prints.
#![tactic(auto)]

// Writes the name, the numbers parted by blanks, and an LF to standard output. What cannot be written is left out.
pub fn print_row(rt: &impl Print, name: &[u8], numbers: &[u64]) {
    let _ = rt.write_all(name);
    for (i, number) in numbers.iter().enumerate() {
        if i > 0 {
            let _ = rt.write_all(b" ");
        }
        let _ = rt.print(*number);
    }
    let _ = rt.write_all(b"\n");
}
