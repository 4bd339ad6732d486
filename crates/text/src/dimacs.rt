// Writing a clause and the header of a clause list at the start of a buffer. Each writing function tells how many bytes it wrote.

ghost use Rattle.std.specs.Prelude.{◌≡◌, [], ◌∷◌, ◌++◌, ◌+◌, ◌≤◌, length};
ghost use Rattle.bits.specs.Lists.{Put};
ghost use Rattle.text.specs.Dimacs.{blank, literal_text, literals_text, body_text, closing, header_text};
ghost use Rattle.text.specs.private.Words.{record_text};

use checking::clauses::ClauseWord;

// Writes a literal.
fn put_signed(out: &mut [u8], literal: ClauseWord) -> usize
    requires { length (literal_text literal) ≤ length out.old }
    ensures { Put result out.new (literal_text literal) out.old }
{
    let variable = u64::from(literal.unsigned_abs());
    if literal < 0 {
        return crate::put::put_numbered(out, b"-", variable);
    }
    crate::put::put_number(out, variable)
}

// Writes a literal and a blank.
fn put_literal(out: &mut [u8], literal: ClauseWord) -> usize
    requires { length (literal_text literal ++ (blank ∷ [])) ≤ length out.old }
    ensures { Put result out.new (literal_text literal ++ (blank ∷ [])) out.old }
{
    let at = put_signed(out, literal);
    at + crate::put::put(&mut out[at..], b" ")
}

// Writes literals, each followed by a blank.
fn put_literals(out: &mut [u8], literals: &[ClauseWord]) -> usize
    requires { length (literals_text literals.now) ≤ length out.old }
    ensures { Put result out.new (literals_text literals.now) out.old }
{
    let mut at = 0;
    for literal in literals {
        at += put_literal(&mut out[at..], *literal);
    }
    at
}

// Writes literals and what closes their clause.
pub(crate) fn put_closed(out: &mut [u8], literals: &[ClauseWord]) -> usize
    requires { length (body_text literals.now) + 2 ≤ length out.old }
    ensures { Put result out.new (body_text literals.now ++ closing) out.old }
{
    if literals.is_empty() {
        return crate::put::put(out, b" 0\n");
    }
    let at = put_literals(out, literals);
    at + crate::put::put(&mut out[at..], b"0\n")
}

// Writes a clause by its kind and its literals.
pub(crate) fn put_clause(out: &mut [u8], kind: ClauseWord, literals: &[ClauseWord]) -> usize
    requires { length (record_text kind literals.now) ≤ length out.old }
    ensures { Put result out.new (record_text kind literals.now) out.old }
{
    let at = if kind == 1 {
        crate::put::put(out, b"x")
    } else {
        0
    };
    at + put_closed(&mut out[at..], literals)
}

// Writes the header.
#[tactic(auto, unfolding(crate::specs::Dimacs::header_text))]
pub(crate) fn put_header(out: &mut [u8], variables: u64, clauses: u64) -> usize
    requires { length (header_text variables clauses) ≤ length out.old }
    ensures { Put result out.new (header_text variables clauses) out.old }
{
    let mut at = crate::put::put_numbered(out, b"p cnf ", variables);
    at += crate::put::put_numbered(&mut out[at..], b" ", clauses);
    at + crate::put::put(&mut out[at..], b"\n")
}
