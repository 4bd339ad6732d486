// The clauses that words store, and writing them at the start of a buffer.

ghost use Rattle.std.specs.Prelude.{◌++◌, ◌≤◌, length, IfSome};
ghost use Rattle.std.specs.Iterator.{YieldsFirstBy, item_count};
ghost use Rattle.bits.specs.Lists.{Put};
ghost use Rattle.text.specs.Dimacs.{header_text, clauses_text};
ghost use Rattle.text.specs.private.Words.{Plainable, StoresList, stored_in, clause_of};

use checking::clauses::ClauseWord;

// A clause by its kind, 1 for an XOR, and its literals. The kind is the word that the list stores: an enum would be made here from the word, and each contract would name that word again.
#[derive(Clone, Copy)]
pub(crate) struct Record<'a> {
    pub kind: ClauseWord,
    pub literals: &'a [ClauseWord],
}

// The words of the clauses that are left. That they store a list stands in `can_next`, as a ghost field may hold no list of clauses.
#[derive(Drop)]
pub(crate) struct Records<'a> {
    pub words: &'a [ClauseWord],
}

impl<'a> Iterator for Records<'a> {
    type Item = Record<'a>;

    ghost can_next = { λ s. StoresList s.words.now };

    ghost next_gives = { λ s r t. YieldsFirstBy (λ x. clause_of x.kind x.literals.now) (λ s. stored_in s.words.now) s r t × IfSome r (λ x. Plainable x.kind x.literals.now) };

    ghost remaining = { item_count (λ s. stored_in s.words.now) };

    fn next(&mut self) -> Option<Record<'a>> {
        let words = self.words;
        if words.is_empty() {
            return None;
        }
        let end = 2 + words[1].unsigned_abs() as usize;
        self.words = &words[end..];
        Some(Record {
            kind: words[0],
            literals: &words[2..end],
        })
    }
}

// Writes the header and the clauses that words store. plain.rt has the same loop with another writer, and says why.
pub(crate) fn put_list(out: &mut [u8], variables: u64, clauses: u64, words: &[ClauseWord]) -> usize
    requires stores_list { StoresList words.now }
    requires out_room { length (header_text variables clauses ++ clauses_text (stored_in words.now)) ≤ length out.old }
    ensures { Put result out.new (header_text variables clauses ++ clauses_text (stored_in words.now)) out.old }
{
    let mut at = crate::dimacs::put_header(out, variables, clauses);
    for record in (Records { words }) {
        at += crate::dimacs::put_clause(&mut out[at..], record.kind, record.literals);
    }
    at
}
