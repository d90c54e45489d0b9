// Reasoners whose calls are replayed as one list.
use crate::call::{Line, ReasonerCall};
use crate::fault::Fault;
use crate::kinds::grade;
use crate::reading::Reasoner;
use crate::replayed::Replayed;
use crate::score::Score;
use blockfile::StoredKind;
use replay::{Call, replay};
use saturation::Row;
use standpoint::{ACCEPTED, Refusal, Statement, Step};
use std::alloc::Global;

// Replays the calls, and has the step check judge each list that an explanation wrote.
pub(crate) fn replay_calls<K: StoredKind + Drop>(
    heap: Global,
    kind: &K,
    reasoner: &Reasoner<'_>,
    score: &mut Score,
) -> Result<(), Fault> {
    let calls = decoded::<K>(heap, &reasoner.lines)?;
    let mut rows = vec![in heap; Row::EMPTY; reasoner.rows]?;
    let mut grades = vec![in heap; kind.start(); reasoner.rows]?;
    let mut outcomes = vec![in heap; Err(Refusal::NotBegun); calls.len()]?;
    let mut steps = vec![in heap; any_step(kind); room(reasoner)]?;
    // There is a place for each outcome, so that all calls are performed.
    replay(
        kind,
        &mut rows,
        &mut grades,
        &calls,
        &mut outcomes,
        &mut steps,
    );
    let mut replayed = Replayed::new(heap, kind, &steps);
    for (line, (call, outcome)) in reasoner.lines.iter().zip(calls.iter().zip(&outcomes)) {
        let answer = replayed.answer(*call, *outcome)?;
        score.count(heap, line, Some(answer))?;
    }
    Ok(())
}

// The calls, with the grades of their codes.
fn decoded<K: StoredKind>(
    heap: Global,
    lines: &[Line<'_, ReasonerCall<'_>>],
) -> Result<Vec<Call<K::Grade>>, Fault> {
    let mut calls = Vec::new(heap);
    for line in lines {
        calls.push(decoded_call::<K>(line)?)?;
    }
    Ok(calls)
}

fn decoded_call<K: StoredKind>(line: &Line<'_, ReasonerCall<'_>>) -> Result<Call<K::Grade>, Fault> {
    let ReasonerCall::Replayed(call) = line.call else {
        return Err(Fault::Unread(line.number));
    };
    Ok(match call {
        Call::Begin(sizes) => Call::Begin(sizes),
        Call::Add(statement, code) => Call::Add(statement, grade::<K>(code)?),
        Call::Settle(n) => Call::Settle(n),
        Call::Ask(statement) => Call::Ask(statement),
        Call::Explain(statement, most) => Call::Explain(statement, most),
    })
}

// Places for the steps of all explanations: none needs more than there are rows.
fn room(reasoner: &Reasoner<'_>) -> usize {
    let rows = reasoner.rows;
    reasoner
        .lines
        .iter()
        .fold(0usize, |places, line| match line.call {
            ReasonerCall::Replayed(Call::Explain(_, most)) => places.saturating_add(most.min(rows)),
            _ => places,
        })
}

// What stands where no step is written.
fn any_step<K: StoredKind>(kind: &K) -> Step<K::Grade> {
    Step {
        rule: ACCEPTED,
        first: 0,
        second: 0,
        third: 0,
        statement: Statement::CONTRADICTION,
        grade: kind.start(),
    }
}
