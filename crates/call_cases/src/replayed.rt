// The answers that the outcomes of a replay stand for.
use crate::answer::Answer;
use crate::basis::Basis;
use crate::fault::Fault;
use blockfile::StoredKind;
use replay::{Call, Done};
use standpoint::{Refusal, Statement, Step};
use std::alloc::Global;

// What the calls up to one have come to.
#[derive(Drop)]
pub struct Replayed<'a, K: StoredKind + Drop> {
    basis: Basis<'a, K>,
    // The steps of later explanations.
    unread: &'a [Step<K::Grade>],
}

impl<'a, K: StoredKind + Drop> Replayed<'a, K> {
    pub(crate) fn new(heap: Global, kind: &'a K, steps: &'a [Step<K::Grade>]) -> Replayed<'a, K> {
        Replayed {
            basis: Basis::new(heap, kind),
            unread: steps,
        }
    }

    // The answer to the next call, which came to this outcome.
    pub(crate) fn answer(
        &mut self,
        call: Call<K::Grade>,
        outcome: Result<Done<K::Grade>, Refusal>,
    ) -> Result<Answer, Fault> {
        let done = match outcome {
            Ok(done) => done,
            Err(refusal) => return Ok(Answer::Refused(refusal)),
        };
        Ok(match (call, done) {
            (Call::Begin(sizes), Done::Began) => {
                self.basis.begin(sizes);
                Answer::Performed
            }
            (Call::Add(statement, grade), Done::Added) => {
                self.basis.accept(statement, grade)?;
                Answer::Performed
            }
            (Call::Settle(_), Done::Settled(count, stand)) => Answer::Settled(count, stand),
            (Call::Ask(_), Done::Said(said)) => Answer::said::<K>(said),
            (Call::Explain(statement, _), Done::Explained(count)) => {
                self.explained(statement, count)
            }
            _ => Answer::Unasked,
        })
    }

    // What the step check says of the next explanation, which has so many steps.
    fn explained(&mut self, statement: Statement, count: usize) -> Answer {
        let (steps, later) = self.unread.split_at(count.min(self.unread.len()));
        self.unread = later;
        let last = steps.last().map(|step| step.statement);
        match self.basis.check(steps) {
            Ok(grade) if last == Some(statement) => Answer::Passes(K::encode(grade)),
            Ok(_) => Answer::Unasked,
            Err(refusal) => Answer::Refused(refusal),
        }
    }
}
