// The calls of a case that need no reasoner.
use crate::answer::Answer;
use crate::basis::Basis;
use crate::call::Call;
use crate::fault::Fault;
use crate::kinds::grade;
use blockfile::StoredKind;
use standpoint::{Sizes, Statement, Step};
use std::alloc::Global;

// The check that the lines have gathered so far.
#[derive(Drop)]
pub struct Play<'a, K: StoredKind + Drop> {
    basis: Basis<'a, K>,
    steps: Vec<Step<K::Grade>>,
}

impl<'a, K: StoredKind + Drop> Play<'a, K> {
    pub(crate) fn new(heap: Global, kind: &'a K) -> Play<'a, K> {
        Play {
            basis: Basis::new(heap, kind),
            steps: Vec::new(heap),
        }
    }

    // The answer to a call, if it has one.
    pub(crate) fn perform(&mut self, call: Call) -> Result<Option<Answer>, Fault> {
        match call {
            Call::Check(sizes) => self.check(sizes),
            Call::Accept(statement, code) => self.accept(statement, code)?,
            Call::Step(step) => self.step(step)?,
            Call::Verdict => return Ok(Some(self.verdict())),
            Call::Start => return Ok(Some(self.start())),
            Call::Join(a, b) => return Ok(Some(self.join(a, b)?)),
            Call::NoWorse(a, b) => return Ok(Some(self.no_worse(a, b)?)),
        }
        Ok(None)
    }

    fn check(&mut self, sizes: Sizes) {
        self.basis.begin(sizes);
        self.steps.clear();
    }

    fn accept(&mut self, statement: Statement, code: u32) -> Result<(), Fault> {
        self.basis.accept(statement, grade::<K>(code)?)
    }

    fn step(&mut self, step: Step<u32>) -> Result<(), Fault> {
        self.steps.push(Step {
            rule: step.rule,
            first: step.first,
            second: step.second,
            third: step.third,
            statement: step.statement,
            grade: grade::<K>(step.grade)?,
        })?;
        Ok(())
    }

    fn verdict(&self) -> Answer {
        match self.basis.check(&self.steps) {
            Ok(grade) => Answer::Passes(K::encode(grade)),
            Err(refusal) => Answer::Refused(refusal),
        }
    }

    fn start(&self) -> Answer {
        Answer::Code(K::encode(self.basis.kind.start()))
    }

    fn join(&self, a: u32, b: u32) -> Result<Answer, Fault> {
        let joined = self.basis.kind.join(grade::<K>(a)?, grade::<K>(b)?);
        Ok(Answer::Code(K::encode(joined)))
    }

    fn no_worse(&self, a: u32, b: u32) -> Result<Answer, Fault> {
        let truth = self.basis.kind.no_worse(grade::<K>(a)?, grade::<K>(b)?);
        Ok(Answer::Truth(truth))
    }
}
