// The header of a cascade: its line count, and its marks.

ghost use Rattle.std.specs.Prelude.{◌≡◌};
ghost use Rattle.circuit.specs.Header.{unmarked, marks_good, marked, same_marks, permits, alike};

// The lines, the mask of the constant lines, that of those whose constant is 1, and that of the junk lines.
#[repr(C)]
#[derive(Clone, Copy, Debug, PartialEq, Eq)]
pub struct Header {
    pub lines: u64,
    pub constants: u64,
    pub values: u64,
    pub junk: u64,
}

impl Header {
    // The header of a cascade without marks.
    pub fn unmarked(lines: u64) -> Header
        ensures { result ≡ unmarked lines }
    {
        Header {
            lines,
            constants: 0,
            values: 0,
            junk: 0,
        }
    }

    // Whether every mark is on a line of the cascade, and only constants have value 1.
    #[tactic(auto, unfolding(crate::specs::Header::marks_good))]
    pub fn marks_good(self) -> bool
        ensures { result ≡ marks_good self }
    {
        crate::gate::below(self.constants, self.lines)
            && crate::gate::below(self.junk, self.lines)
            && (self.values & self.constants) == self.values
    }

    // Whether some line is a constant or junk.
    pub fn marked(self) -> bool
        ensures { result ≡ marked self }
    {
        self.constants != 0 || self.junk != 0
    }

    // Whether two headers have the same marks.
    pub fn same_marks(self, other: Header) -> bool
        ensures { result ≡ same_marks self other }
    {
        self.constants == other.constants && self.values == other.values && self.junk == other.junk
    }

    // Whether a state is one of the lines and agrees with the constants.
    #[tactic(auto, unfolding(crate::specs::Header::permits))]
    pub fn permits(self, state: u64) -> bool
        ensures { result ≡ permits self state }
    {
        crate::gate::below(state, self.lines) && (state & self.constants) == self.values
    }

    // Whether two states are the same on all lines but the junk ones.
    #[tactic(auto, unfolding(crate::specs::Header::alike))]
    pub fn alike(self, s: u64, t: u64) -> bool
        ensures { result ≡ alike self s t }
    {
        (s | self.junk) == (t | self.junk)
    }
}
