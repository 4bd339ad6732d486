// The C interface: each call of include/cascade.h, over the call of the same name. Its answers are structs of numbers, one for each call's own, since C has no sum types and their names are C's.
#![tactic(auto)]

pub mod compare;
pub mod count;
pub mod emit;
pub mod faults;
pub mod file;
pub mod inverse;
pub mod miter;
pub mod pair;
pub mod reduce;
pub mod run;
pub mod sizes;
pub mod step;
pub mod widths;
