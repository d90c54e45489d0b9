// The calls of the worked cases.
ghost use Rattle.std.specs.Prelude.{◌≡◌, ◌≤◌};
ghost use Rattle.replay.specs.declared.call.Call.TheVariants.{Begin, Add};
ghost use Rattle.standpoint.specs.Grades.{tally_grade};
ghost use Rattle.standpoint.specs.Statements.{sharper};
ghost use Rattle.worked.specs.Lists.{sizes, bare_calls, clash_calls, detour_calls};

use crate::grades::tally;
use replay::Call;
use standpoint::{Sizes, Statement, TallyGrade};

// Nothing is accepted.
pub(crate) fn bare_calls() -> [Call<TallyGrade>; 3]
    ensures { result ≡ bare_calls }
{
    [
        begin(1, 2, 0),
        Call::Settle(10),
        Call::Ask(Statement::CONTRADICTION),
    ]
}

// An individual is throughout what nothing is.
pub(crate) fn clash_calls<G: Clone + Copy + Drop>(g: G, h: G) -> [Call<G>; 5]
    ensures { result ≡ clash_calls g h }
{
    [
        begin(1, 4, 1),
        Call::Add(Statement::nested_inclusion(0, 2, 0, 0, 3), g),
        Call::Add(Statement::nested_inclusion(0, 0, 0, 3, 1), h),
        Call::Settle(1000),
        Call::Ask(Statement::CONTRADICTION),
    ]
}

// A sharpening, and a better way by another standpoint.
pub(crate) fn detour_calls() -> [Call<TallyGrade>; 6]
    ensures { result ≡ detour_calls }
{
    [
        begin(4, 2, 0),
        sharpening(1, 2, 5),
        sharpening(1, 3, 1),
        sharpening(3, 2, 1),
        Call::Settle(1000),
        Call::Ask(Statement::sharper(1, 2)),
    ]
}

fn begin<G: Clone + Copy + Drop>(standpoints: u16, concepts: u16, individuals: u16) -> Call<G>
    ensures { result ≡ Begin (sizes standpoints concepts 0 individuals) }
{
    Call::Begin(Sizes {
        standpoints,
        concepts,
        roles: 0,
        individuals,
    })
}

fn sharpening(s: u16, u: u16, value: u32) -> Call<TallyGrade>
    ensures { (h : value ≤ 4294967295) → result ≡ Add (sharper s u) (tally_grade value h) }
{
    Call::Add(Statement::sharper(s, u), tally(value))
}
