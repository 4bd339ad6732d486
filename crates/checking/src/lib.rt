// Miter, steps and reductions; the clause list of a cascade, its emission, and demand 3; comparison and faults.
#![tactic(auto)]

ghost use Rattle.checking.specs.Laws.{CheckingLaws};

pub mod check;
pub mod clauses;
pub mod compare;
mod emission;
mod emitter;
pub mod faults;
pub mod miter;
pub mod pair;
mod put;
pub mod reduce;
pub mod step;
mod sums;
mod tested;
pub mod widths;

// Has no effect: its contract is the record of this crate's laws.
pub fn laws()
    ensures { CheckingLaws }
{}
