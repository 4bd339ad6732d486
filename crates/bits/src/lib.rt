// Laws on the binary digits of numbers and on lists, for the crates above.
#![tactic(auto)]

ghost use Rattle.bits.specs.Laws.{DigitLaws};

// Has no effect: its contract is the record of the laws on digits.
pub fn laws()
    ensures { DigitLaws }
{}
