// Why a call is refused: by documents 01 and 02 a number and a place.

ghost use Rattle.std.specs.Prelude.{◌≡◌};
ghost use Rattle.circuit.specs.Refusal.{refusal_number, refusal_place};

#[derive(Clone, Copy, Debug, PartialEq, Eq)]
pub enum Refusal {
    // A line of a file has the wrong form, or `end` or an LF is missing.
    WrongForm(u64),
    // The line count is outside 1 to 64.
    BadLineCount,
    // A target or a control is no line of the cascade.
    LineOutside(u64),
    // A target stands among its controls.
    TargetControlled(u64),
    // Controls are not rising.
    NotRising(u64),
    // There are more gates than allowed.
    TooManyGates(u64),
    // Words form no gate on the lines.
    NoGate(u64),
    // Two cascades have different line counts.
    LineCountsDiffer,
    // A state has a bit above the lines, or breaks a constant.
    BadState(u64),
    // The buffer is shorter than the answer.
    NoRoom,
    // The word count is no multiple of three.
    BadWordCount,
    // Two cascades agree on a state of a fault list.
    AgreeingState(u64),
    // A sweep has more than 16 lines.
    TooWide,
    // A mark stands on no line of the cascade, or marks do not rise, or a line that is no constant has value 1.
    BadMark(u64),
    // Two cascades have different marks.
    MarksDiffer,
    // A word of a clause list is outside −32,768 to 32,767.
    WordTooWide(u64),
}

impl Refusal {
    pub fn number(self) -> u64
        ensures { result ≡ refusal_number self }
    {
        match self {
            Refusal::WrongForm(_) => 1,
            Refusal::BadLineCount => 2,
            Refusal::LineOutside(_) => 3,
            Refusal::TargetControlled(_) => 4,
            Refusal::NotRising(_) => 5,
            Refusal::TooManyGates(_) => 6,
            Refusal::NoGate(_) => 7,
            Refusal::LineCountsDiffer => 8,
            Refusal::BadState(_) => 9,
            Refusal::NoRoom => 10,
            Refusal::BadWordCount => 11,
            Refusal::AgreeingState(_) => 12,
            Refusal::TooWide => 13,
            Refusal::BadMark(_) => 14,
            Refusal::MarksDiffer => 15,
            Refusal::WordTooWide(_) => 16,
        }
    }

    // The line of a file, the gate, the word or the list index; else 0.
    pub fn place(self) -> u64
        ensures { result ≡ refusal_place self }
    {
        match self {
            Refusal::WrongForm(place)
            | Refusal::LineOutside(place)
            | Refusal::TargetControlled(place)
            | Refusal::NotRising(place)
            | Refusal::TooManyGates(place)
            | Refusal::NoGate(place)
            | Refusal::BadState(place)
            | Refusal::AgreeingState(place)
            | Refusal::BadMark(place)
            | Refusal::WordTooWide(place) => place,
            _ => 0,
        }
    }
}
