// Two cascades compared: the first difference, the check of one input, and the one with fewer gates.

ghost use Rattle.std.specs.Prelude.{◌≡◌};
ghost use Rattle.circuit.specs.Outcome.{outcome_of, map_served};
ghost use Rattle.circuit.specs.Words.{gates_of, pair_outcome};
ghost use Rattle.checking.specs.Compare.{lowest_from, outputs_differ, Sweeps, Picks, differs_outcome, pick_outcome, of_difference, of_refusal};

use crate::tested::Tested;
use circuit::gate::Gate;
use circuit::header::Header;
use circuit::refusal::Refusal;

// Whether a line that counts comes out differently from two cascades, which were tested, on a state.
pub(crate) fn outputs_differ(h: Header, a: Tested, b: Tested, state: u64) -> bool
    ensures { result ≡ outputs_differ h (gates_of a.entry.words.now) (gates_of b.entry.words.now) state }
{
    !h.alike(
        circuit::run::run_tested(a.words, state),
        circuit::run::run_tested(b.words, state),
    )
}

// The lowest permitted state below `count` on which two cascades differ.
fn lowest_difference(h: Header, a: Tested, b: Tested, count: u64) -> Option<u64>
    ensures { of_difference result ≡ lowest_from h (gates_of a.entry.words.now) (gates_of b.entry.words.now) 0 count }
{
    (0..count).find(|x| h.permits(*x) && outputs_differ(h, a, b, *x))
}

// The lowest state on which two cascades of at most 16 lines differ (02: sweep), or none; else what is wrong with the pair, or 13.
#[tactic(auto, unfolding(crate::specs::Compare::difference_outcome))]
pub fn first_difference(
    ha: Header,
    a: &[u64],
    hb: Header,
    b: &[u64],
) -> Result<Option<u64>, Refusal>
    ensures { Sweeps ha a.now hb b.now (map_served of_difference (outcome_of result)) }
{
    circuit::words::check_headed_pair(ha, a, hb, b)?;
    if Gate::MAX_SWEEP_LINES < ha.lines {
        return Err(Refusal::TooWide);
    }
    Ok(lowest_difference(ha, Tested { words: a }, Tested { words: b }, 1 << ha.lines))
}

// Whether two cascades differ on a state (02: input check); else what is wrong with the pair, or 9.
#[tactic(auto, unfolding(crate::specs::Compare::differs_outcome))]
pub fn differs(ha: Header, a: &[u64], hb: Header, b: &[u64], state: u64) -> Result<bool, Refusal>
    ensures { outcome_of result ≡ differs_outcome ha a.now hb b.now state }
{
    circuit::words::check_headed_pair(ha, a, hb, b)?;
    if !ha.permits(state) {
        return Err(Refusal::BadState(0));
    }
    Ok(outputs_differ(ha, Tested { words: a }, Tested { words: b }, state))
}

// Why `fewer_gates` is refused: what is wrong with the pair; or nothing.
#[tactic(auto, unfolding(crate::specs::Compare::pick_outcome))]
pub fn fewer_gates_refusal(na: u64, a: &[u64], nb: u64, b: &[u64]) -> Option<Refusal>
    ensures { of_refusal result ≡ pick_outcome na a.now nb b.now }
{
    circuit::words::check_pair(na, a, nb, b).err()
}

// The cascade with fewer gates (01: pick), the first on a tie; the empty stretch at the first's start where that is refused.
pub fn fewer_gates<'a>(na: u64, a: &'a [u64], nb: u64, b: &'a [u64]) -> &'a [u64]
    ensures { Picks (pair_outcome na a.now nb b.now) a.now b.now result.now a.entry.ref_ptr b.entry.ref_ptr result.ref_ptr }
{
    match circuit::words::check_pair(na, a, nb, b) {
        Err(_) => &a[0..0],
        Ok(counts) => {
            if counts.first <= counts.second {
                return a;
            }
            b
        }
    }
}
