// A whole list of calls on a new reasoner.
ghost use Rattle.std.specs.Prelude.{◌≡◌, ℕ, ◌<◌, ◌≤◌, min, length, take, drop, slice_set};
ghost use Rattle.saturation.specs.Rows.{rows_in};
ghost use Rattle.saturation.specs.Tables.{view, fresh, capacity, OverSame};
ghost use Rattle.saturation.specs.Memory.{SameBeyond};
ghost use Rattle.reasoner.specs.Calls.{Unchanged};
ghost use Rattle.replay.specs.Pasts.{steps_of, written};
ghost use Rattle.replay.specs.Replays.{Replayed, GradesAreBest, ExplanationsAreOne, NothingIsExact, GradedContradictionExcludes};
ghost use Rattle.replay.specs.Performing.{ExplainsWithin, Performs, Performed};

use crate::call::{Call, Done};
use explanation::explain;
use reasoner::{add, ask, begin, settle};
use saturation::{Row, Table};
use standpoint::{Kind, Refusal, Statement, Step};

// Performs the calls in order on a new reasoner over the lent memory, as many as there are places for the outcomes: how
// many. Steps are written one explanation behind the other.
pub fn replay<K: Kind>(
    kind: &K,
    rows: &mut [Row],
    grades: &mut [K::Grade],
    calls: &[Call<K::Grade>],
    outcomes: &mut [Result<Done<K::Grade>, Refusal>],
    steps: &mut [Step<K::Grade>],
) -> usize
    ensures count { result ≡ min (length calls.now) (length outcomes.old) }
    ensures later { drop result outcomes.new ≡ drop result outcomes.old }
    ensures memory { SameBeyond (fresh rows.old grades.old) (fresh rows.new grades.new) }
    ensures performed { Replayed (K.Kind.algebra kind.now) rows.old grades.old calls.now outcomes.new steps.old result rows.new grades.new steps.new }
    ensures best { GradesAreBest (K.Kind.algebra kind.now) calls.now outcomes.new result }
    ensures explained { ExplanationsAreOne (K.Kind.algebra kind.now) calls.now outcomes.new result steps.new }
    ensures behind { drop (written outcomes.new result) steps.new ≡ drop (written outcomes.new result) steps.old }
    ensures nothing { NothingIsExact (K.Kind.algebra kind.now) calls.now outcomes.new result (rows_in rows.old grades.old) }
    ensures excludes { GradedContradictionExcludes (K.Kind.algebra kind.now) calls.now outcomes.new result }
{
    let mut reasoner = Table::make(rows, grades);
    perform_all(&mut reasoner, kind, calls, outcomes, steps)
}

// The calls in order, as many as there are places for the outcomes: how many.
fn perform_all<K: Kind>(
    reasoner: &mut Table<'_, K::Grade>,
    kind: &K,
    calls: &[Call<K::Grade>],
    outcomes: &mut [Result<Done<K::Grade>, Refusal>],
    steps: &mut [Step<K::Grade>],
) -> usize
    ensures memory { OverSame reasoner.old reasoner.new }
    ensures count { result ≡ min (length calls.now) (length outcomes.old) }
    ensures later { drop result outcomes.new ≡ drop result outcomes.old }
    ensures done { Performed (K.Kind.algebra kind.now) calls.now outcomes.new reasoner.old steps.old result reasoner.new steps.new }
{
    let count = calls.len().min(outcomes.len());
    let mut written = 0;
    // By places: what is proved of each call speaks of its place, which a `zip` does not tell.
    for i in 0..count {
        let outcome = perform_behind(reasoner, kind, calls[i], steps, written);
        written += steps_of(outcome);
        put(outcomes, i, outcome);
    }
    count
}

// One call, which leaves the steps that are written already: they stay part of the list, since explanations are told by places
// in the whole of it.
fn perform_behind<K: Kind>(
    reasoner: &mut Table<'_, K::Grade>,
    kind: &K,
    call: Call<K::Grade>,
    steps: &mut [Step<K::Grade>],
    written: usize,
) -> Result<Done<K::Grade>, Refusal>
    requires { written ≤ length steps.old }
    ensures memory { OverSame reasoner.old reasoner.new }
    ensures long { capacity (view reasoner.new) ≡ capacity (view reasoner.old) }
    ensures kept { take written steps.new ≡ take written steps.old }
    ensures done { Performs (K.Kind.algebra kind.now) call result reasoner.old reasoner.new (drop written steps.old) (drop written steps.new) }
{
    perform(reasoner, kind, call, &mut steps[written..])
}

// Apart from the loop, in which the check finds no bound for the offset of an outcome whose size is not known.
fn put<T: Drop>(places: &mut [T], i: usize, value: T)
    requires { i < length places.old }
    ensures { places.new ≡ slice_set places.old i value }
{
    places[i] = value;
}

// One call; an explanation may use the first places of the room.
fn perform<K: Kind>(
    reasoner: &mut Table<'_, K::Grade>,
    kind: &K,
    call: Call<K::Grade>,
    room: &mut [Step<K::Grade>],
) -> Result<Done<K::Grade>, Refusal>
    ensures memory { OverSame reasoner.old reasoner.new }
    ensures long { capacity (view reasoner.new) ≡ capacity (view reasoner.old) }
    ensures done { Performs (K.Kind.algebra kind.now) call result reasoner.old reasoner.new room.old room.new }
{
    // A match, since which calls there are is closed, and each takes something else.
    match call {
        Call::Begin(sizes) => {
            begin(reasoner, kind, sizes)?;
            Ok(Done::Began)
        }
        Call::Add(statement, grade) => {
            add(reasoner, kind, statement, grade)?;
            Ok(Done::Added)
        }
        Call::Settle(n) => {
            let (count, stand) = settle(reasoner, kind, n)?;
            Ok(Done::Settled(count, stand))
        }
        Call::Ask(statement) => Ok(Done::Said(ask(reasoner, statement)?)),
        Call::Explain(statement, most) => {
            let count = explain_within(reasoner, statement, most, room)?;
            Ok(Done::Explained(count))
        }
    }
}

// An explanation on at most so many places of the room.
fn explain_within<G: Clone + Copy + Drop>(
    reasoner: &mut Table<'_, G>,
    statement: Statement,
    most: usize,
    room: &mut [Step<G>],
) -> Result<usize, Refusal>
    ensures memory { OverSame reasoner.old reasoner.new }
    ensures unchanged { Unchanged reasoner.old reasoner.new }
    ensures answer { ExplainsWithin statement most reasoner.old room.old room.new result }
{
    let places = most.min(room.len());
    explain(reasoner, statement, &mut room[0..places])
}

// How many steps were written.
fn steps_of<G: Clone + Copy + Drop>(outcome: Result<Done<G>, Refusal>) -> usize
    ensures { result ≡ steps_of outcome }
{
    match outcome {
        Ok(Done::Explained(count)) => count,
        _ => 0,
    }
}
