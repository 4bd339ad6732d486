// A clause list as OR clauses alone: its sizes, and writing it at the start of a buffer. Each writing function tells how many bytes it wrote.

ghost use Rattle.std.specs.Prelude.{◌≡◌, [], ◌∷◌, ◌++◌, ◌+◌, ◌≤◌, ◌<◌, neg_ℤ, length};
ghost use Rattle.bits.specs.Lists.{Put};
ghost use Rattle.checking.specs.Clauses.{OR, XOR, max_variables};
ghost use Rattle.checking.specs.Satisfaction.{variable_of, LiteralsWithin};
ghost use Rattle.checking.specs.Stored.{word_limit};
ghost use Rattle.text.specs.Dimacs.{decimal, literal_text, body_text, closing, clauses_text, header_text};
ghost use Rattle.text.specs.Plain.{plain_clause, plain_clauses};
ghost use Rattle.text.specs.Compare.{max_list};
ghost use Rattle.text.specs.private.Words.{plain_record, Plainable, StoresList, plain_sizes, stored_in};

use crate::stored::Records;
use checking::clauses::ClauseWord;

// The bytes of a text, and the clauses in it.
#[derive(Clone, Copy)]
pub struct PlainSizes {
    pub bytes: usize,
    pub clauses: u64,
}

// The number of digits of any number. Circuit's function is of a number below 100, whose text has at most two.
pub(crate) fn digits(k: u64) -> usize
    ensures count { result ≡ length (decimal k) }
    ensures few { result ≤ 20 }
{
    k.checked_ilog10().unwrap_or(0) as usize + 1
}

// The bytes of a literal.
fn literal_size(literal: ClauseWord) -> usize
    ensures size { result ≡ length (literal_text literal) }
    ensures few { result ≤ 21 }
{
    let count = digits(u64::from(literal.unsigned_abs()));
    if literal < 0 { count + 1 } else { count }
}

// The bytes of a literal and of the opposite one.
fn both_size(literal: ClauseWord) -> usize
    requires { variable_of literal < word_limit }
    ensures { result ≡ length (literal_text literal) + length (literal_text (neg_ℤ literal)) }
{
    literal_size(literal) + literal_size(-literal)
}

// The bytes of an OR.
fn closed_size(literals: &[ClauseWord]) -> usize
    requires few_literals { length literals.now ≤ max_list }
    requires literals_within { LiteralsWithin max_variables literals.now }
    ensures { result ≡ length (body_text literals.now ++ closing) }
{
    if literals.is_empty() {
        return 3;
    }
    let mut size = 2;
    for literal in literals {
        size += literal_size(*literal) + 1;
    }
    size
}

// The bytes of a clause's plain clauses. That it has some stands in the contracts and not in the record, since stored.rt writes the records of any clause.
fn record_size(kind: ClauseWord, literals: &[ClauseWord]) -> usize
    requires { Plainable kind literals.now }
    ensures { result ≡ length (clauses_text (plain_record kind literals.now)) }
{
    if kind == 1 {
        let two = both_size(literals[0]) + both_size(literals[1]);
        if literals.len() == 2 {
            return two + 8;
        }
        return 2 * (two + both_size(literals[2])) + 20;
    }
    closed_size(literals)
}

// The number of a clause's plain clauses.
fn record_clauses(kind: ClauseWord, literals: &[ClauseWord]) -> u64
    requires { Plainable kind literals.now }
    ensures { result ≡ length (plain_record kind literals.now) }
{
    if kind == 1 {
        if literals.len() == 2 {
            return 2;
        }
        return 4;
    }
    1
}

// The sizes of the plain clauses that words store.
pub(crate) fn list_sizes(words: &[ClauseWord]) -> PlainSizes
    requires { StoresList words.now }
    ensures { result ≡ plain_sizes words.now }
{
    let mut bytes = 0;
    let mut clauses = 0;
    for record in (Records { words }) {
        bytes += record_size(record.kind, record.literals);
        clauses += record_clauses(record.kind, record.literals);
    }
    PlainSizes { bytes, clauses }
}

// Writes the plain clauses of an XOR of two literals.
fn put_pair(out: &mut [u8], a: ClauseWord, b: ClauseWord) -> usize
    requires literals_fit { (variable_of a < word_limit) × (variable_of b < word_limit) }
    requires out_room { length (clauses_text (plain_clause (XOR (a ∷ b ∷ [])))) ≤ length out.old }
    ensures { Put result out.new (clauses_text (plain_clause (XOR (a ∷ b ∷ [])))) out.old }
{
    let at = crate::dimacs::put_closed(out, &[a, b]);
    at + crate::dimacs::put_closed(&mut out[at..], &[-a, -b])
}

// Writes the plain clauses of an XOR of three literals.
fn put_triple(out: &mut [u8], a: ClauseWord, b: ClauseWord, c: ClauseWord) -> usize
    requires literals_fit { (variable_of a < word_limit) × (variable_of b < word_limit) × (variable_of c < word_limit) }
    requires out_room { length (clauses_text (plain_clause (XOR (a ∷ b ∷ c ∷ [])))) ≤ length out.old }
    ensures { Put result out.new (clauses_text (plain_clause (XOR (a ∷ b ∷ c ∷ [])))) out.old }
{
    let mut at = crate::dimacs::put_closed(out, &[a, b, c]);
    at += crate::dimacs::put_closed(&mut out[at..], &[a, -b, -c]);
    at += crate::dimacs::put_closed(&mut out[at..], &[-a, b, -c]);
    at + crate::dimacs::put_closed(&mut out[at..], &[-a, -b, c])
}

// Writes a clause's plain clauses.
fn put_record(out: &mut [u8], kind: ClauseWord, literals: &[ClauseWord]) -> usize
    requires plainable { Plainable kind literals.now }
    requires out_room { length (clauses_text (plain_record kind literals.now)) ≤ length out.old }
    ensures { Put result out.new (clauses_text (plain_record kind literals.now)) out.old }
{
    if kind == 1 {
        if literals.len() == 2 {
            return put_pair(out, literals[0], literals[1]);
        }
        return put_triple(out, literals[0], literals[1], literals[2]);
    }
    crate::dimacs::put_closed(out, literals)
}

// Writes the header and the clauses that words store, as OR clauses alone. A function over this and the one of stored.rt would take what writes a record and, in its contract, the text of one, for a loop of one line.
pub(crate) fn put_list(out: &mut [u8], variables: u64, clauses: u64, words: &[ClauseWord]) -> usize
    requires stores_list { StoresList words.now }
    requires out_room { length (header_text variables clauses ++ clauses_text (plain_clauses (stored_in words.now))) ≤ length out.old }
    ensures { Put result out.new (header_text variables clauses ++ clauses_text (plain_clauses (stored_in words.now))) out.old }
{
    let mut at = crate::dimacs::put_header(out, variables, clauses);
    for record in (Records { words }) {
        at += put_record(&mut out[at..], record.kind, record.literals);
    }
    at
}
