// Writing what the program answers at the start of a buffer, and how many bytes it is.

ghost use Rattle.std.specs.Prelude.{◌≤◌, length};
ghost use Rattle.bits.specs.Lists.{Put};
ghost use Rattle.text.specs.Tomiter.{max_text, tomiter_text};

use checking::clauses::ClauseWord;

// Writes what the program answers to an input.
pub(crate) fn put_text(out: &mut [u8], input: &[u8]) -> usize
    requires { max_text ≤ length out.old }
    ensures { Put result out.new (tomiter_text input.now) out.old }
{
    let mut clauses: [ClauseWord; crate::MAX_WORDS] = [0; crate::MAX_WORDS];
    match crate::list::list(input, &mut clauses) {
        Ok(totals) => {
            let end = totals.words as usize;
            crate::stored::put_list(out, totals.variables, totals.clauses, &clauses[..end])
        }
        Err(r) => crate::put::put_three(
            out,
            b"refused\t",
            r.why.number(),
            r.file.number(),
            r.why.place(),
        ),
    }
}
