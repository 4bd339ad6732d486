// Cascade files: the cascade at the start of a text, of a whole file, and of two files.

ghost use Rattle.std.specs.Prelude.{◌≡◌, ◌/◌, ◌≤◌, length};
ghost use Rattle.circuit.specs.Gate.{max_gates};
ghost use Rattle.circuit.specs.Words.{Headed};
ghost use Rattle.circuit.specs.File.{mark_lines};
ghost use Rattle.text.specs.Compare.{file_words};

use crate::refused::{File, FileRefusal};
use circuit::gate::Gate;
use circuit::header::Header;
use circuit::refusal::Refusal;

// The number of mark lines of a header.
fn mark_lines(h: Header) -> u64
    ensures { (result ≡ mark_lines h) × (result ≤ 128) }
{
    circuit::gate::count(h.constants) + circuit::gate::count(h.junk)
}

// A cascade that was read, whose words stand in a lent room.
#[derive(Clone, Copy)]
pub(crate) struct CascadeRead<'a> {
    pub header: Header,
    pub words: &'a [u64],
    ghost cascade: { Headed header words.now max_gates (length words.now / 3) },
    ghost few: { length words.now ≤ file_words },
}

// The same, and the bytes that it took.
#[derive(Clone, Copy)]
pub(crate) struct StartRead<'a> {
    pub cascade: CascadeRead<'a>,
    pub taken: usize,
}

// The cascades of two files, with the same header.
#[derive(Clone, Copy)]
pub(crate) struct PairRead<'a> {
    pub first: CascadeRead<'a>,
    pub second: CascadeRead<'a>,
    ghost same_header: { first.header ≡ second.header },
}

impl<'a> StartRead<'a> {
    ghost use Rattle.std.specs.Prelude.{◌≡◌, ◌*◌, ◌≤◌, length};
    ghost use Rattle.circuit.specs.Outcome.{outcome_of, map_served};
    ghost use Rattle.text.specs.Compare.{max_file_gates};
    ghost use Rattle.text.specs.WholeFile.{file_within};
    ghost use Rattle.text.specs.private.Files.{reading_of};

    // The cascade of at most `most` gates at the start of a text; else what is wrong with it. The reading itself tells 10, as it has room for no more.
    pub(crate) fn read(
        text: &[u8],
        most: usize,
        room: &'a mut [u64],
    ) -> Result<StartRead<'a>, Refusal>
        requires few { most ≤ max_file_gates }
        requires long { 3 * most ≤ length room.old }
        ensures { map_served reading_of (outcome_of result) ≡ file_within most text.now }
    {
        let end = Gate::WORDS * most;
        let counts = circuit::file::read(text, &mut room[..end])?;
        Ok(StartRead {
            cascade: CascadeRead {
                header: counts.header,
                words: &room[..Gate::WORDS * counts.gates],
            },
            taken: counts.taken,
        })
    }
}

impl<'a> CascadeRead<'a> {
    ghost use Rattle.std.specs.Prelude.{◌≡◌, ◌*◌, ◌≤◌, length};
    ghost use Rattle.circuit.specs.Outcome.{outcome_of, map_served};
    ghost use Rattle.text.specs.Compare.{max_file_gates};
    ghost use Rattle.text.specs.WholeFile.{whole_file};
    ghost use Rattle.text.specs.private.Files.{whole_of};

    // The cascade of at most `most` gates of a file, which has no byte after its `end`; else what is wrong with it.
    pub(crate) fn read(
        text: &[u8],
        most: usize,
        room: &'a mut [u64],
    ) -> Result<CascadeRead<'a>, Refusal>
        requires few { most ≤ max_file_gates }
        requires long { 3 * most ≤ length room.old }
        ensures { map_served (whole_of (length text.now)) (outcome_of result) ≡ whole_file most text.now }
    {
        let start = StartRead::read(text, most, room)?;
        if start.taken != text.len() {
            let gates = start.cascade.words.len() / Gate::WORDS;
            let before = mark_lines(start.cascade.header) + gates as u64;
            return Err(Refusal::WrongForm(before + 2));
        }
        Ok(start.cascade)
    }
}

impl<'a> PairRead<'a> {
    ghost use Rattle.std.specs.Prelude.{◌≡◌, ◌≤◌, length};
    ghost use Rattle.text.specs.Compare.{file_words, files_of};
    ghost use Rattle.text.specs.FileOutcome.{answer_of, map_answer};
    ghost use Rattle.text.specs.private.Files.{pair_of};

    // The cascades of two files; else what is wrong with them.
    #[tactic(auto, unfolding(crate::specs::Compare::files_of, crate::specs::Compare::second_file))]
    pub(crate) fn read(
        first: &[u8],
        second: &[u8],
        a: &'a mut [u64],
        b: &'a mut [u64],
    ) -> Result<PairRead<'a>, FileRefusal>
        requires first_room { file_words ≤ length a.old }
        requires second_room { file_words ≤ length b.old }
        ensures { map_answer pair_of (answer_of result) ≡ files_of first.now second.now }
    {
        if crate::MAX_FILE < first.len() {
            return Err(FileRefusal {
                why: Refusal::NoRoom,
                file: File::First,
            });
        }
        if crate::MAX_FILE < second.len() {
            return Err(FileRefusal {
                why: Refusal::NoRoom,
                file: File::Second,
            });
        }
        let first = File::First.of(CascadeRead::read(first, crate::MAX_FILE_GATES, a))?;
        let second = File::Second.of(CascadeRead::read(second, crate::MAX_FILE_GATES, b))?;
        if first.header.lines != second.header.lines {
            return Err(FileRefusal::both(Refusal::LineCountsDiffer));
        }
        if !first.header.same_marks(second.header) {
            return Err(FileRefusal::both(Refusal::MarksDiffer));
        }
        Ok(PairRead { first, second })
    }
}
