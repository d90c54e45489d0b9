// How the answers compare with the recorded ones.
use crate::answer::Answer;
use crate::call::Line;
use crate::fault::Fault;
use std::alloc::Global;

// How many answers agree, of how many.
#[derive(Clone, Copy, Default)]
pub struct Score {
    // The case whose answers are compared now.
    pub case: u32,
    pub agree: u64,
    pub answers: u64,
    pub first_difference: Option<Difference>,
}

// Where an answer differs from the recorded one.
#[derive(Clone, Copy)]
pub struct Difference {
    pub case: u32,
    pub line: usize,
}

impl Score {
    // Counts what a line answers, if anything, and what was recorded.
    pub(crate) fn count<C>(
        &mut self,
        heap: Global,
        line: &Line<'_, C>,
        answer: Option<Answer>,
    ) -> Result<(), Fault> {
        let text = match answer {
            Some(answer) => Some(format!(in heap; "{answer}")?),
            None => None,
        };
        self.compare(line.number, text.as_deref(), line.recorded);
        Ok(())
    }

    fn compare(&mut self, line: usize, answer: Option<&str>, recorded: Option<&str>) {
        if answer.is_none() && recorded.is_none() {
            return;
        }
        self.answers = self.answers.saturating_add(1);
        if answer == recorded {
            self.agree = self.agree.saturating_add(1);
        } else if self.first_difference.is_none() {
            let case = self.case;
            self.first_difference = Some(Difference { case, line });
        }
    }
}
