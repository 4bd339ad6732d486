// Writing numbers at the start of a buffer. Each function tells how many bytes it wrote. By hand, as std's formatting promises nothing of the bytes that it writes.

ghost use Rattle.std.specs.Prelude.{◌≡◌, [], ◌∷◌, ◌++◌, ◌+◌, ◌/◌, ◌%◌, ◌≤◌, ◌<◌, length};
ghost use Rattle.bits.specs.Lists.{Put};
ghost use Rattle.circuit.specs.Text.{line_feed, digit};
ghost use Rattle.text.specs.Dimacs.{decimal};
ghost use Rattle.text.specs.FileOutcome.{numbers_text};

// Copies the items to the buffer's start, and tells how many they are. Each crate has its own: one for all would be open and ask for room, and with a test of the room emission with many controls takes half again as long.
pub(crate) fn put<T: Copy>(out: &mut [T], items: &[T]) -> usize
    requires { length items.now ≤ length out.old }
    ensures { Put result out.new items.now out.old }
{
    // With copy_from_slice, which compares the two places, writing takes longer.
    let size = items.len();
    for i in 0..size {
        out[i] = items[i];
    }
    size
}

// The digit of a number below 10.
fn digit(k: u64) -> u8
    requires { k < 10 }
    ensures { result ≡ digit k }
{
    b'0' + k as u8
}

// Writes the two digits of a number below 100.
fn put_two(out: &mut [u8], k: u64) -> usize
    requires { (k < 100) × (2 ≤ length out.old) }
    ensures { Put result out.new (digit (k / 10) ∷ digit (k % 10) ∷ []) out.old }
{
    out[0] = digit(k / 10);
    out[1] = digit(k % 10);
    2
}

// Writes a number below 100.
fn put_short(out: &mut [u8], k: u64) -> usize
    requires { (k < 100) × (length (decimal k) ≤ length out.old) }
    ensures { Put result out.new (decimal k) out.old }
{
    if k < 10 {
        out[0] = digit(k);
        return 1;
    }
    put_two(out, k)
}

// Writes a number below 10,000. Of its own, as `put_long` with its recursion is slower.
#[tactic(auto, using(crate::proofs::Decimal::hundreds_length))]
fn put_middle(out: &mut [u8], k: u64) -> usize
    requires { (k < 10000) × (length (decimal k) ≤ length out.old) }
    ensures { Put result out.new (decimal k) out.old }
{
    if k < 100 {
        return put_short(out, k);
    }
    let at = put_short(out, k / 100);
    at + put_two(&mut out[at..], k % 100)
}

// Writes a number, two digits a call.
#[tactic(auto, using(crate::proofs::Decimal::hundreds_length))]
fn put_long(out: &mut [u8], k: u64) -> usize
    requires { length (decimal k) ≤ length out.old }
    ensures { Put result out.new (decimal k) out.old }
{
    if k < 100 {
        return put_short(out, k);
    }
    let at = put_long(out, k / 100);
    at + put_two(&mut out[at..], k % 100)
}

// Writes a number.
pub(crate) fn put_number(out: &mut [u8], k: u64) -> usize
    requires { length (decimal k) ≤ length out.old }
    ensures { Put result out.new (decimal k) out.old }
{
    if k < 10000 {
        return put_middle(out, k);
    }
    put_long(out, k)
}

// Writes a word and a number.
#[tactic(auto, using(crate::proofs::put::Laws::then_put))]
pub(crate) fn put_numbered(out: &mut [u8], word: &[u8], k: u64) -> usize
    requires { length word.now + length (decimal k) ≤ length out.old }
    ensures { Put result out.new (word.now ++ decimal k) out.old }
{
    let at = put(out, word);
    at + put_number(&mut out[at..], k)
}

// Writes a word and three numbers, tab-parted, and an LF.
pub(crate) fn put_three(out: &mut [u8], word: &[u8], a: u64, b: u64, c: u64) -> usize
    requires { length word.now + length (decimal a) + length (decimal b) + length (decimal c) + 3 ≤ length out.old }
    ensures { Put result out.new (word.now ++ numbers_text a b c) out.old }
{
    let mut at = put_numbered(out, word, a);
    at += put_numbered(&mut out[at..], b"\t", b);
    at += put_numbered(&mut out[at..], b"\t", c);
    at + put(&mut out[at..], b"\n")
}
