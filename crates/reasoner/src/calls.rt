// The calls. Each tests in a fixed order, and a refusal leaves everything as it was. The kind is handed to each call apart from
// the table, which holds grades of any kind.
ghost use Rattle.standpoint.specs.declared.refusal.Refusal.TheVariants.{NotBegun, Sealed};
ghost use Rattle.saturation.specs.declared.phase.Phase.TheVariants.{Taking};
ghost use Rattle.saturation.specs.Phases.{is_begun, is_sealed};
ghost use Rattle.saturation.specs.Tables.{view, capacity, OverSame, Same};
ghost use Rattle.reasoner.specs.Calls.{Begun, Adds, SettledSo};
ghost use Rattle.std.specs.Prelude.{◌≡◌, ◌⊎◌, true, false, MatchResult};
ghost use Rattle.saturation.specs.Offering.{Grown};
ghost use Rattle.reasoner.specs.Filling.{Takes};

use runs::Stand;
use saturation::{Kept, Phase, Table};
use standpoint::{Kind, Refusal, Sizes, Statement, tautology, tautology_count};

// Drops everything and starts with the tautologies of new sizes; refuses sizes out of range, then too few rows.
pub fn begin<K: Kind>(
    reasoner: &mut Table<'_, K::Grade>,
    kind: &K,
    sizes: Sizes,
) -> Result<(), Refusal>
    ensures memory { OverSame reasoner.old reasoner.new }
    ensures long { capacity (view reasoner.new) ≡ capacity (view reasoner.old) }
    ensures answer { Begun (K.Kind.algebra kind.now) sizes reasoner.old reasoner.new result }
{
    sizes.check()?;
    let count = tautology_count(&sizes);
    if reasoner.capacity() < count {
        return Err(Refusal::TooFewRows);
    }
    reasoner.restart(sizes);
    // By its index: for a loop over a `filter_map` here the check states nothing that could be proved.
    for k in 0..count {
        if let Some(x) = tautology(&sizes, k) {
            take_tautology(reasoner, kind, x);
        }
    }
    Ok(())
}

// Takes one tautology at the start grade.
fn take_tautology<K: Kind>(reasoner: &mut Table<'_, K::Grade>, kind: &K, x: Statement)
    ensures same { Same reasoner.old reasoner.new }
    ensures grown { Grown (view reasoner.old) (view reasoner.new) }
    ensures taken { Takes (K.Kind.algebra kind.now) x (view reasoner.old) (view reasoner.new) }
{
    let start = kind.start();
    // No row can be missing: begin tested that there are enough.
    let _ = reasoner.offer(kind, x, start, Kept::TAUTOLOGY);
}

// Accepts a statement with a grade; refuses with 1, 6, 4, 5 and 7 in this order.
pub fn add<K: Kind>(
    reasoner: &mut Table<'_, K::Grade>,
    kind: &K,
    statement: Statement,
    grade: K::Grade,
) -> Result<(), Refusal>
    ensures memory { OverSame reasoner.old reasoner.new }
    ensures long { capacity (view reasoner.new) ≡ capacity (view reasoner.old) }
    ensures answer { Adds (K.Kind.algebra kind.now) statement grade reasoner.old reasoner.new result }
{
    let sizes = taking(reasoner.phase)?;
    if !statement.fits(&sizes) {
        return Err(Refusal::DoesNotFit);
    }
    if statement.misplaced(sizes.individuals) {
        return Err(Refusal::MisplacedIndividual);
    }
    // The last test, as those above.
    if reasoner
        .offer(kind, statement, grade, Kept::ACCEPTED)
        .is_err()
    {
        return Err(Refusal::RowsTaken);
    }
    Ok(())
}

// The sizes of a base that takes statements; refuses with 1, and with 6 a base that is sealed.
fn taking(phase: Phase) -> Result<Sizes, Refusal>
    ensures { MatchResult result (λ n. phase ≡ Taking n) (λ e. ((e ≡ NotBegun) × (is_begun phase ≡ false)) ⊎ ((e ≡ Sealed) × (is_sealed phase ≡ true))) }
{
    match phase {
        Phase::Idle => Err(Refusal::NotBegun),
        Phase::Taking(sizes) => Ok(sizes),
        Phase::Running(_) | Phase::Full(_) => Err(Refusal::Sealed),
    }
}

// Seals the base and settles n statements, unless the run stands ended or full before: how many, and how it stands.
pub fn settle<K: Kind>(
    reasoner: &mut Table<'_, K::Grade>,
    kind: &K,
    n: u32,
) -> Result<(u32, Stand), Refusal>
    ensures memory { OverSame reasoner.old reasoner.new }
    ensures long { capacity (view reasoner.new) ≡ capacity (view reasoner.old) }
    ensures answer { SettledSo (K.Kind.algebra kind.now) n reasoner.old reasoner.new result }
{
    reasoner.settle(kind, n)
}
