// What lists of steps are checked against.
use crate::fault::Fault;
use standpoint::{Kind, Refusal, Sizes, Statement, Step, check};
use std::alloc::Global;

// Sizes and accepted statements, with the kind of their grades.
#[derive(Drop)]
pub struct Basis<'a, K: Kind + Drop> {
    pub kind: &'a K,
    sizes: Sizes,
    accepted: Vec<(Statement, K::Grade)>,
}

impl<'a, K: Kind + Drop> Basis<'a, K> {
    pub(crate) fn new(heap: Global, kind: &'a K) -> Basis<'a, K> {
        Basis {
            kind,
            // Sizes that the check refuses, until others are begun with.
            sizes: Sizes::default(),
            accepted: Vec::new(heap),
        }
    }

    // Drops what was accepted, and goes on with these sizes.
    pub(crate) fn begin(&mut self, sizes: Sizes) {
        self.sizes = sizes;
        self.accepted.clear();
    }

    pub(crate) fn accept(&mut self, statement: Statement, grade: K::Grade) -> Result<(), Fault> {
        self.accepted.push((statement, grade))?;
        Ok(())
    }

    pub(crate) fn check(&self, steps: &[Step<K::Grade>]) -> Result<K::Grade, Refusal> {
        check(self.kind, self.sizes, &self.accepted, steps)
    }
}
