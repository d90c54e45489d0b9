// Writing the marked steps out.
ghost use Rattle.std.specs.Prelude.{◌≡◌, ◌+◌, ◌<◌, ◌≤◌, length, slice_set};
ghost use Rattle.saturation.specs.Tables.{view};
ghost use Rattle.explanation.specs.Needed.{rank, Renumbers, ChosenWritten};
ghost use Rattle.explanation.specs.Marks.{mark_at, place_of, MarksPlaced, PremisesPlaced};

use crate::marks::marked;
use saturation::Table;
use standpoint::Step;

// The place in the list of a step whose settling place counts from 1; 0 is none.
fn place_in_list<G: Copy>(reasoner: &Table<'_, G>, place: u32) -> usize
    requires { place ≤ reasoner.now.settled }
    ensures { result ≡ place_of (view reasoner.now) place }
{
    match place.checked_sub(1) {
        Some(k) => reasoner.rows[k as usize].listed as usize,
        None => 0,
    }
}

// The k-th kept step, with the places that its premises have among the marked ones.
fn renumbered<G: Clone + Copy + Drop>(reasoner: &Table<'_, G>, k: usize) -> Step<G>
    requires { (k < reasoner.now.settled) × PremisesPlaced (view reasoner.now) k }
    ensures { Renumbers (view reasoner.now) (mark_at (view reasoner.now)) k result }
{
    let at = reasoner.rows[k].turn as usize;
    let row = reasoner.rows[at];
    Step {
        rule: row.kept.rule,
        first: place_in_list(reasoner, row.kept.first),
        second: place_in_list(reasoner, row.kept.second),
        third: place_in_list(reasoner, row.kept.third),
        statement: row.statement,
        grade: reasoner.grades[at],
    }
}

// Apart from the loop, in which the check finds no bound for the offset of a `Step` whose size is not known.
fn put<G: Clone + Copy + Drop>(buffer: &mut [Step<G>], n: usize, step: Step<G>)
    requires { n < length buffer.old }
    ensures { buffer.new ≡ slice_set buffer.old n step }
{
    buffer[n] = step;
}

// Writes the marked steps up to the t-th, in settling order: how many.
pub(crate) fn write_marked<G: Clone + Copy + Drop>(
    reasoner: &Table<'_, G>,
    t: usize,
    buffer: &mut [Step<G>],
) -> usize
    requires { (t < reasoner.now.settled) × (rank (mark_at (view reasoner.now)) (t + 1) ≤ length buffer.old) × MarksPlaced (view reasoner.now) t }
    ensures count { result ≡ rank (mark_at (view reasoner.now)) (t + 1) }
    ensures steps { ChosenWritten (view reasoner.now) (mark_at (view reasoner.now)) (t + 1) buffer.old buffer.new }
{
    // By a counter: for a loop over `filter` and `enumerate` here the check states nothing that could be proved.
    let mut count = 0;
    for k in 0..t + 1 {
        if marked(reasoner, k) {
            put(buffer, count, renumbered(reasoner, k));
            count += 1;
        }
    }
    count
}
