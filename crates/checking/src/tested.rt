// Words whose gates were tested.

ghost use Rattle.std.specs.Prelude.{◌≡◌, true};
ghost use Rattle.circuit.specs.Gate.{max_lines};
ghost use Rattle.circuit.specs.Words.{gates_of, all_valid};

// Words each of whose gates is one on 64 lines.
#[derive(Clone, Copy)]
pub(crate) struct Tested<'a> {
    pub words: &'a [u64],
    ghost tested: { all_valid max_lines (gates_of words.now) ≡ true },
}
