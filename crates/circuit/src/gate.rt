// A gate: the masks of its positive and negative controls, and its target line.

ghost use Rattle.std.specs.Prelude.{◌≡◌, ◌-◌, ◌%◌, ◌^◌, ◌≤◌, true, ◌==◌, bit_and, count_ones, nat_lt};
ghost use Rattle.std.specs.Int.Count.{count_trailing_zeros};
ghost use Rattle.bits.specs.Digits.{bit};
ghost use Rattle.circuit.specs.Gate.{max_lines, not_gate, fires, apply, missed, toggled, valid, control_count};

#[repr(C)]
#[derive(Clone, Copy, Debug, PartialEq, Eq)]
pub struct Gate {
    pub positive: u64,
    pub negative: u64,
    pub target: u64,
}

// The mask of the lines at n and above.
fn above(n: u64) -> u64
    ensures { result ≡ 2 ^ max_lines - 2 ^ n }
{
    if n < Gate::MAX_LINES {
        return 0u64.wrapping_sub(line(n));
    }
    0
}

// Whether the mask has no bit at n or above.
pub fn below(mask: u64, n: u64) -> bool
    ensures { result ≡ nat_lt mask (2 ^ n) }
{
    (mask & above(n)) == 0
}

// The mask of line k alone; for 64 and above, that of the rest of k by 64.
pub fn line(k: u64) -> u64
    ensures { result ≡ 2 ^ (k % max_lines) }
{
    1 << (k % Gate::MAX_LINES)
}

// Whether line k stands in the mask; for 64 and above, the line of the rest of k by 64.
#[tactic(auto, unfolding(bits::specs::Digits::bit))]
pub fn has(mask: u64, k: u64) -> bool
    ensures { result ≡ bit mask (k % max_lines) }
{
    (mask >> (k % Gate::MAX_LINES)) % 2 == 1
}

// Whether line k does not stand in the mask.
fn clear(mask: u64, k: u64) -> bool
    ensures { result ≡ (bit_and mask (2 ^ k) == 0) }
{
    if has(mask, k) {
        return Gate::MAX_LINES <= k;
    }
    true
}

// How many bits of the mask are set.
pub fn count(mask: u64) -> u64
    ensures { (result ≡ count_ones mask) × (result ≤ max_lines) }
{
    mask.count_ones() as u64
}

// The lowest line of the mask; 64 where it has none.
pub fn lowest(mask: u64) -> u64
    ensures { result ≡ count_trailing_zeros max_lines mask }
{
    mask.trailing_zeros() as u64
}

impl Gate {
    pub const MAX_LINES: u64 = 64;

    // Gates of a cascade.
    pub const MAX_GATES: usize = 16384;

    // Gates of a miter.
    pub const MAX_MITER_GATES: usize = 32768;

    // The lines of a sweep, at most.
    pub const MAX_SWEEP_LINES: u64 = 16;

    // Words of a gate in memory.
    pub const WORDS: usize = 3;

    // The gate without controls.
    pub fn not(target: u64) -> Gate
        ensures { result ≡ not_gate target }
    {
        Gate {
            positive: 0,
            negative: 0,
            target,
        }
    }

    // Whether the record is a gate on n lines.
    #[tactic(auto, using(crate::proofs::lemmas::gate::Valid::target_above, crate::proofs::lemmas::gate::Valid::valid_within, crate::proofs::lemmas::gate::Valid::free_beyond, crate::proofs::lemmas::gate::Valid::shared_beyond))]
    pub fn valid(self, n: u64) -> bool
        ensures { result ≡ valid n self }
    {
        if n <= self.target {
            return false;
        }
        let controls = self.positive | self.negative;
        let shared = self.positive & self.negative;
        if Gate::MAX_LINES < n {
            return shared == 0 && clear(controls, self.target);
        }
        ((controls & (above(n) | line(self.target))) | shared) == 0
    }

    // Whether every positive control is 1 and every negative one 0.
    pub fn fires(self, state: u64) -> bool
        ensures { result ≡ fires self state }
    {
        (((state & self.positive) ^ self.positive) | (state & self.negative)) == 0
    }

    // The lines on which the state misses a control, of a gate that was tested.
    #[tactic(auto, unfolding(crate::specs::Gate::missed))]
    pub fn missed(self, state: u64) -> u64
        ensures { result ≡ missed self state }
    {
        (state ^ self.positive) & (self.positive | self.negative)
    }

    // The state after a gate that was tested: the target is inverted where no control is missed.
    #[tactic(auto, unfolding(crate::specs::Gate::toggled, crate::specs::Gate::missed))]
    pub fn toggle(self, state: u64) -> u64
        ensures { result ≡ toggled self state }
    {
        state ^ (((self.missed(state) == 0) as u64) << (self.target % Gate::MAX_LINES))
    }

    // The state after the gate; the same one if the record is no gate on 64 lines.
    #[tactic(auto, using(crate::proofs::lemmas::gate::Effect::toggled_apply, crate::proofs::lemmas::gate::Effect::apply_none))]
    pub fn apply(self, state: u64) -> u64
        ensures { result ≡ apply self state }
    {
        if self.valid(Gate::MAX_LINES) {
            return self.toggle(state);
        }
        state
    }

    // How many controls the gate has.
    #[tactic(auto, unfolding(crate::specs::Gate::control_count))]
    pub fn control_count(self) -> u64
        ensures { result ≡ control_count self }
    {
        count(self.positive) + count(self.negative)
    }
}
