// cascade_first_difference, cascade_differs, cascade_fewer_gates.

ghost use Rattle.std.specs.Prelude.{◌≡◌};
ghost use Rattle.circuit.specs.Words.{pair_outcome};
ghost use Rattle.checking.specs.Compare.{difference_outcome, differs_outcome};
ghost use Rattle.capi.specs.Compare.{state_answer, differs_answer, fewer_answer};

use circuit::gate::Gate;
use circuit::header::Header;

#[repr(C)]
#[derive(Clone, Copy, Debug, PartialEq, Eq)]
pub struct CascadeStateAnswer {
    pub number: u64,
    pub place: u64,
    pub found: u64,
    pub state: u64,
}

#[repr(C)]
#[derive(Clone, Copy, Debug, PartialEq, Eq)]
pub struct CascadeDiffersAnswer {
    pub number: u64,
    pub place: u64,
    pub differs: u64,
}

#[repr(C)]
#[derive(Clone, Copy, Debug, PartialEq, Eq)]
pub struct CascadeFewerAnswer {
    pub number: u64,
    pub place: u64,
    pub second: u64,
    pub gates: u64,
}

#[unsafe(no_mangle)]
pub extern "C" fn cascade_first_difference(
    a_header: Header,
    a: &[u64],
    b_header: Header,
    b: &[u64],
) -> CascadeStateAnswer
    ensures { result ≡ state_answer (difference_outcome a_header a.now b_header b.now) }
{
    match checking::compare::first_difference(a_header, a, b_header, b) {
        Ok(Some(state)) => CascadeStateAnswer {
            number: 0,
            place: 0,
            found: 1,
            state,
        },
        Ok(None) => CascadeStateAnswer {
            number: 0,
            place: 0,
            found: 0,
            state: 0,
        },
        Err(why) => CascadeStateAnswer {
            number: why.number(),
            place: why.place(),
            found: 0,
            state: 0,
        },
    }
}

#[unsafe(no_mangle)]
pub extern "C" fn cascade_differs(
    a_header: Header,
    a: &[u64],
    b_header: Header,
    b: &[u64],
    state: u64,
) -> CascadeDiffersAnswer
    ensures { result ≡ differs_answer (differs_outcome a_header a.now b_header b.now state) }
{
    match checking::compare::differs(a_header, a, b_header, b, state) {
        Ok(differs) => CascadeDiffersAnswer {
            number: 0,
            place: 0,
            differs: differs as u64,
        },
        Err(why) => CascadeDiffersAnswer {
            number: why.number(),
            place: why.place(),
            differs: 0,
        },
    }
}

// The stretch that `fewer_gates` gives is the second where it is shorter than the first.
#[unsafe(no_mangle)]
pub extern "C" fn cascade_fewer_gates<'a>(
    na: u64,
    a: &'a [u64],
    nb: u64,
    b: &'a [u64],
) -> CascadeFewerAnswer
    ensures { result ≡ fewer_answer (pair_outcome na a.now nb b.now) }
{
    if let Some(why) = checking::compare::fewer_gates_refusal(na, a, nb, b) {
        return CascadeFewerAnswer {
            number: why.number(),
            place: why.place(),
            second: 0,
            gates: 0,
        };
    }
    let words = checking::compare::fewer_gates(na, a, nb, b).len();
    CascadeFewerAnswer {
        number: 0,
        place: 0,
        second: (words < a.len()) as u64,
        gates: (words / Gate::WORDS) as u64,
    }
}
