// What the reasoner says of a statement.
ghost use Rattle.saturation.specs.Tables.{view};
ghost use Rattle.reasoner.specs.Asking.{Asked, RowGraded, LeftOver};

use runs::Stand;
use saturation::Table;
use standpoint::{Refusal, Statement};

// What ask answers.
#[derive(Clone, Copy)]
pub enum Answer<G: Clone + Copy + Drop> {
    // The grade at which the statement is settled.
    Graded(G),
    // The run stands ended, and the statement is not derivable.
    Nothing,
    // The statement is not settled, and the run does not stand ended.
    Pending,
}

// The settled grade of a statement; without one, nothing if the run stands ended, else pending. Refuses with 1 and 4.
pub fn ask<G: Clone + Copy + Drop>(
    reasoner: &Table<'_, G>,
    statement: Statement,
) -> Result<Answer<G>, Refusal>
    ensures { Asked reasoner.now statement result }
{
    let sizes = reasoner.sizes()?;
    if !statement.fits(&sizes) {
        return Err(Refusal::DoesNotFit);
    }
    match settled_grade(reasoner, statement) {
        Some(grade) => Ok(Answer::Graded(grade)),
        None => Ok(without_grade(reasoner)),
    }
}

// The grade at which the statement is settled, or none.
fn settled_grade<G: Clone + Copy + Drop>(reasoner: &Table<'_, G>, statement: Statement) -> Option<G>
    ensures { RowGraded (view reasoner.now) statement result }
{
    let i = reasoner.find(statement)?;
    reasoner.rows[i].place?;
    Some(reasoner.grades[i])
}

// What is said of a statement that is not settled.
fn without_grade<G: Clone + Copy + Drop>(reasoner: &Table<'_, G>) -> Answer<G>
    ensures { LeftOver reasoner.now result }
{
    match reasoner.stand() {
        Stand::Ended => Answer::Nothing,
        Stand::Open | Stand::Full => Answer::Pending,
    }
}
