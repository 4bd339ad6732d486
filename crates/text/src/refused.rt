// A refusal, and of which file it is.

ghost use Rattle.std.specs.Prelude.{◌≡◌};
ghost use Rattle.circuit.specs.Outcome.{outcome_of};
ghost use Rattle.text.specs.declared.refused.File.TheVariants.{Both};
ghost use Rattle.text.specs.FileOutcome.{answered, of_file, file_number, answer_of};

use circuit::refusal::Refusal;

#[derive(Clone, Copy, Debug, PartialEq, Eq)]
pub(crate) enum File {
    Both,
    First,
    Second,
}

#[derive(Clone, Copy, Debug, PartialEq, Eq)]
pub(crate) struct FileRefusal {
    pub why: Refusal,
    pub file: File,
}

impl File {
    pub(crate) fn number(self) -> u64
        ensures { result ≡ file_number self }
    {
        match self {
            File::Both => 0,
            File::First => 1,
            File::Second => 2,
        }
    }

    // What is answered of this file.
    pub(crate) fn of<T>(self, answer: Result<T, Refusal>) -> Result<T, FileRefusal>
        ensures { answer_of result ≡ of_file (file_number self) (outcome_of answer) answered }
    {
        match answer {
            Ok(value) => Ok(value),
            Err(why) => Err(FileRefusal { why, file: self }),
        }
    }
}

impl FileRefusal {
    pub(crate) fn both(why: Refusal) -> FileRefusal
        ensures { result ≡ record { why = why; file = Both } }
    {
        FileRefusal {
            why,
            file: File::Both,
        }
    }
}
