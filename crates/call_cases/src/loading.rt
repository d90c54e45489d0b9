// Reasoners into which files are loaded; their calls are performed one by one.
use crate::answer::Answer;
use crate::call::{Line, ReasonerCall};
use crate::fault::Fault;
use crate::kinds::grade;
use crate::reading::Reasoner;
use crate::score::Score;
use blockfile::{StoredKind, load};
use reasoner::{add, ask, begin, settle};
use replay::Call;
use saturation::{Row, Table};
use standpoint::Refusal;
use std::fs;

pub(crate) fn perform_calls<K: StoredKind>(
    rt: &HostRuntime,
    kind: &K,
    reasoner: &Reasoner<'_>,
    score: &mut Score,
) -> Result<(), Fault> {
    let heap = rt.alloc();
    let mut rows = vec![in heap; Row::EMPTY; reasoner.rows]?;
    let mut grades = vec![in heap; kind.start(); reasoner.rows]?;
    let mut table = Table::make(&mut rows, &mut grades);
    for line in &reasoner.lines {
        let answer = perform(rt, kind, &mut table, line)?;
        score.count(heap, line, Some(answer))?;
    }
    Ok(())
}

// What a call answers; an explanation beside a load is not recorded.
fn perform<K: StoredKind>(
    rt: &HostRuntime,
    kind: &K,
    table: &mut Table<'_, K::Grade>,
    line: &Line<'_, ReasonerCall<'_>>,
) -> Result<Answer, Fault> {
    Ok(match line.call {
        ReasonerCall::Load(name) => load_file(rt, kind, table, name)?,
        ReasonerCall::Replayed(Call::Begin(sizes)) => performed(begin(table, kind, sizes)),
        ReasonerCall::Replayed(Call::Add(statement, code)) => {
            performed(add(table, kind, statement, grade::<K>(code)?))
        }
        ReasonerCall::Replayed(Call::Settle(n)) => match settle(table, kind, n) {
            Ok((count, stand)) => Answer::Settled(count, stand),
            Err(refusal) => Answer::Refused(refusal),
        },
        ReasonerCall::Replayed(Call::Ask(statement)) => match ask(table, statement) {
            Ok(said) => Answer::said::<K>(said),
            Err(refusal) => Answer::Refused(refusal),
        },
        ReasonerCall::Replayed(Call::Explain(..)) => return Err(Fault::Unread(line.number)),
    })
}

fn performed(outcome: Result<(), Refusal>) -> Answer {
    match outcome {
        Ok(()) => Answer::Performed,
        Err(refusal) => Answer::Refused(refusal),
    }
}

fn load_file<K: StoredKind>(
    rt: &HostRuntime,
    kind: &K,
    table: &mut Table<'_, K::Grade>,
    name: &str,
) -> Result<Answer, Fault> {
    let file = fs::read(rt, name)?;
    Ok(match load(table, kind, &file) {
        Ok(()) => Answer::Performed,
        Err(fault) => Answer::Stopped(fault.report()),
    })
}
