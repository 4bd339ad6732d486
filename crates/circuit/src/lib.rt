// Gates and cascades of reversible circuits, and cascade files. There is no heap: the caller lends each buffer, here and in the crates above.
#![tactic(auto)]

ghost use Rattle.circuit.specs.Laws.{CircuitLaws};

pub mod file;
pub mod gate;
pub mod header;
pub mod inverse;
pub mod refusal;
pub mod run;
pub mod words;

// Has no effect: its contract is the record of this crate's laws.
pub fn laws()
    ensures { CircuitLaws }
{}
