// The call: what a settled statement rests on.
ghost use Rattle.std.specs.Prelude.{◌≡◌, ◌<◌, false};
ghost use Rattle.standpoint.specs.Algebra.{Algebra, Laws};
ghost use Rattle.standpoint.specs.Derivations.{Base};
ghost use Rattle.runs.specs.Runs.{Settled};
ghost use Rattle.saturation.specs.Phases.{is_begun};
ghost use Rattle.saturation.specs.Tables.{view, Same, OverSame};
ghost use Rattle.reasoner.specs.Models.{Holding};
ghost use Rattle.reasoner.specs.Calls.{Unchanged};
ghost use Rattle.explanation.specs.Marks.{ButMarks, Clean};
ghost use Rattle.explanation.specs.Explaining.{Explains, ExplainsAs, Finds, SettledAs, Writes};

use crate::marks::{clear, mark_needed, number_marked};
use crate::writing::write_marked;
use saturation::{Phase, Table};
use standpoint::{Refusal, Statement, Step};

// Writes the kept steps that a settled statement rests on, each once, in settling order, its own last: how many.
// Refuses with 1, 4, 8, 16 and 9 in this order; the reasoner is as before in every case.
pub fn explain<G: Clone + Copy + Drop>(
    reasoner: &mut Table<'_, G>,
    statement: Statement,
    buffer: &mut [Step<G>],
) -> Result<usize, Refusal>
    ensures memory { OverSame reasoner.old reasoner.new }
    ensures unchanged { Unchanged reasoner.old reasoner.new }
    ensures answer { Explains reasoner.old statement buffer.old buffer.new result }
    ensures meaning { (a : Algebra G) → Laws a → (b : Base G) (l : Settled G) → Holding a b reasoner.old l → ExplainsAs a b l statement buffer.old buffer.new result }
{
    let t = settling_place(reasoner, statement)?;
    // Steps may be listed only in a reasoner that is not begun.
    let phase = reasoner.phase;
    reasoner.phase = Phase::Idle;
    let written = write_needed(reasoner, t, buffer);
    clear(reasoner);
    reasoner.phase = phase;
    written
}

// Where the statement stands among the settled ones, from 0; refuses with 1, 4 and 8 in this order.
fn settling_place<G: Copy>(reasoner: &Table<'_, G>, statement: Statement) -> Result<usize, Refusal>
    ensures { Finds reasoner.now statement result }
{
    let sizes = reasoner.sizes()?;
    if !statement.fits(&sizes) {
        return Err(Refusal::DoesNotFit);
    }
    first_settled(reasoner, statement).ok_or(Refusal::Unsettled)
}

// The first settling place of the statement, from 0, or none. By the index: a statement stands in one row.
fn first_settled<G: Copy>(reasoner: &Table<'_, G>, statement: Statement) -> Option<usize>
    ensures { SettledAs (view reasoner.now) statement result }
{
    let i = reasoner.find(statement)?;
    reasoner.rows[i].place.map(|k| k as usize)
}

// The answer for the t-th settled statement; leaves what it listed behind.
fn write_needed<G: Clone + Copy + Drop>(
    reasoner: &mut Table<'_, G>,
    t: usize,
    buffer: &mut [Step<G>],
) -> Result<usize, Refusal>
    requires { (t < reasoner.old.settled) × (is_begun reasoner.old.phase ≡ false) × Clean (view reasoner.old) }
    ensures same { Same reasoner.old reasoner.new }
    ensures state { ButMarks (view reasoner.old) (view reasoner.new) }
    ensures answer { Writes (view reasoner.old) t buffer.old buffer.new result }
{
    mark_needed(reasoner, t)?;
    if number_marked(reasoner, t) > buffer.len() {
        return Err(Refusal::BufferTooShort);
    }
    Ok(write_marked(reasoner, t, buffer))
}
