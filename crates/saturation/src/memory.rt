// A table over lent memory, and its phases.
ghost use Rattle.std.specs.Prelude.{◌≡◌, true, false, MatchResult};
ghost use Rattle.standpoint.specs.declared.refusal.Refusal.TheVariants.{NotBegun};
ghost use Rattle.saturation.specs.declared.phase.Phase.TheVariants.{Idle, Taking};
ghost use Rattle.saturation.specs.Phases.{is_begun, sizes_of};
ghost use Rattle.saturation.specs.Tables.{view, fresh, capacity, OverSame};

use crate::phase::Phase;
use crate::row::Row;
use crate::table::Table;
use standpoint::{Refusal, Sizes};

// No table uses more rows.
const MOST_ROWS: usize = 16_777_215;

impl<'a, G: Copy> Table<'a, G> {
    // A table that is not begun, over memory that may hold anything.
    pub fn make(rows: &'a mut [Row], grades: &'a mut [G]) -> Table<'a, G>
        ensures same { (result.rows.ghost_name ≡ rows.entry.ghost_name) × (result.grades.ghost_name ≡ grades.entry.ghost_name) }
        ensures state { view result ≡ fresh rows.old grades.old }
        ensures phase { result.phase ≡ Idle }
    {
        Table {
            rows,
            grades,
            len: 0,
            settled: 0,
            phase: Phase::Idle,
        }
    }

    // How many rows there are: the shorter of both lengths, at most 16,777,215.
    pub fn capacity(&self) -> usize
        ensures { result ≡ capacity (view self.now) }
    {
        self.rows.len().min(self.grades.len()).min(MOST_ROWS)
    }

    // The sizes of the run; refuses with 1.
    pub fn sizes(&self) -> Result<Sizes, Refusal>
        ensures { MatchResult result (λ n. (is_begun self.now.phase ≡ true) × (n ≡ sizes_of self.now.phase)) (λ e. (e ≡ NotBegun) × (is_begun self.now.phase ≡ false)) }
    {
        match self.phase {
            Phase::Idle => Err(Refusal::NotBegun),
            Phase::Taking(sizes) | Phase::Running(sizes) | Phase::Full(sizes) => Ok(sizes),
        }
    }

    // Begins with new sizes and no row taken.
    pub fn restart(&mut self, sizes: Sizes)
        ensures memory { OverSame self.old self.new }
        ensures state { view self.new ≡ fresh self.old.rows.now self.old.grades.now }
        ensures phase { self.new.phase ≡ Taking sizes }
    {
        self.settled = 0;
        self.len = 0;
        self.phase = Phase::Taking(sizes);
    }
}
