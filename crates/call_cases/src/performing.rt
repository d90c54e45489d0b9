// Performs a case with the kind that it names.
use crate::fault::Fault;
use crate::kinds::{Base, Surcharges, grade};
use crate::loading::perform_calls;
use crate::play::Play;
use crate::reading::{Case, Reasoner};
use crate::replaying::replay_calls;
use crate::score::Score;
use blockfile::StoredKind;
use standpoint::{Letter, Odds, Surcharge, Tally};
use std::alloc::Global;

pub(crate) fn perform_case(
    rt: &HostRuntime,
    case: &Case<'_>,
    score: &mut Score,
) -> Result<(), Fault> {
    let kind = case.kind.ok_or(Fault::NoKind)?;
    let surcharges = kind.surcharges;
    score.case = case.number;
    match kind.base {
        Base::Tally => perform_over(rt, Tally, surcharges, case, score),
        Base::Letter => perform_over(rt, Letter, surcharges, case, score),
        Base::Odds => perform_over(rt, Odds, surcharges, case, score),
    }
}

// Performs the case with the surcharges over the kind.
fn perform_over<K: StoredKind + Drop>(
    rt: &HostRuntime,
    kind: K,
    surcharges: Surcharges,
    case: &Case<'_>,
    score: &mut Score,
) -> Result<(), Fault> {
    match surcharges {
        Surcharges::Zero => perform_with(rt, &kind, case, score),
        Surcharges::One(code) => perform_with(rt, &surcharge(kind, code)?, case, score),
        Surcharges::Two { outer, inner } => {
            let below = surcharge(kind, inner)?;
            perform_with(rt, &surcharge(below, outer)?, case, score)
        }
    }
}

fn surcharge<K: StoredKind + Drop>(below: K, code: u32) -> Result<Surcharge<K>, Fault> {
    let extra = grade::<K>(code)?;
    Ok(Surcharge { below, extra })
}

fn perform_with<K: StoredKind + Drop>(
    rt: &HostRuntime,
    kind: &K,
    case: &Case<'_>,
    score: &mut Score,
) -> Result<(), Fault> {
    play_lines(rt.alloc(), kind, case, score)?;
    for reasoner in &case.reasoners {
        perform_reasoner(rt, kind, reasoner, score)?;
    }
    Ok(())
}

fn play_lines<K: StoredKind + Drop>(
    heap: Global,
    kind: &K,
    case: &Case<'_>,
    score: &mut Score,
) -> Result<(), Fault> {
    let mut play = Play::new(heap, kind);
    for line in &case.lines {
        let answer = play.perform(line.call)?;
        score.count(heap, line, answer)?;
    }
    Ok(())
}

// A load is no call that can be replayed.
fn perform_reasoner<K: StoredKind + Drop>(
    rt: &HostRuntime,
    kind: &K,
    reasoner: &Reasoner<'_>,
    score: &mut Score,
) -> Result<(), Fault> {
    if reasoner.loads() {
        perform_calls(rt, kind, reasoner, score)
    } else {
        replay_calls(rt.alloc(), kind, reasoner, score)
    }
}
