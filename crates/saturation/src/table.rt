// The table over lent memory.
ghost use Rattle.std.specs.Prelude.{◌≤◌, length};
ghost use Rattle.saturation.specs.Phases.{is_begun};
ghost use Rattle.saturation.specs.Rows.{rows_in, InPlace, TurnsWithin, Unlisted, WinnersWithin};
ghost use Rattle.saturation.specs.Buckets.{Indexed};
ghost use Rattle.saturation.specs.Sides.{Sided};

use crate::phase::Phase;
use crate::row::Row;

// Rows with a grade beside each, in memory that is lent. The taken rows are the first `len`, and never move. That the memory
// stays the same is said by each call, since an invariant speaks of one moment.
#[derive(Drop)]
pub struct Table<'a, G> {
    pub rows: &'a mut [Row],
    pub grades: &'a mut [G],
    pub len: usize,
    pub settled: usize,
    pub phase: Phase,
    ghost rows_fit: { len ≤ length rows.now },
    ghost grades_fit: { len ≤ length grades.now },
    ghost few: { len ≤ 16777215 },
    ghost settled_fit: { settled ≤ len },
    ghost turns: { TurnsWithin rows.now settled len },
    ghost in_place: { InPlace rows.now settled len },
    ghost unlisted: { Unlisted rows.now len (is_begun phase) },
    ghost winners: { WinnersWithin rows.now len },
    ghost index: { Indexed (rows_in rows.now grades.now) rows.now len },
    ghost sides: { Sided (rows_in rows.now grades.now) rows.now settled },
}
