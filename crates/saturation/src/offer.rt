// One offer of a statement at a grade.
ghost use Rattle.saturation.specs.Tables.{view, Same};
ghost use Rattle.saturation.specs.Memory.{Offered};
ghost use Rattle.saturation.specs.Offering.{Taken, Keeps, Outdone};
ghost use Rattle.std.specs.Prelude.{◌<◌, is_ok};

use crate::row::Kept;
use crate::rows::NoRow;
use crate::table::Table;
use standpoint::{Kind, Statement};

impl<'a, G: Copy> Table<'a, G> {
    // A new row, a better grade for an unsettled one, or nothing; refused where no row is free.
    pub fn offer<K: Kind<Grade = G>>(
        &mut self,
        kind: &K,
        statement: Statement,
        grade: G,
        kept: Kept,
    ) -> Result<(), NoRow>
        ensures same { Same self.old self.new }
        ensures state { Taken (K.Kind.algebra kind.now) (view self.old) (view self.new) statement grade (is_ok result) }
        ensures rows { Offered (K.Kind.algebra kind.now) (view self.old) (view self.new) statement grade kept (is_ok result) }
        ensures keeps { Keeps (K.Kind.algebra kind.now) (view self.old) (view self.new) statement grade kept }
    {
        let Some(i) = self.find(statement) else {
            let i = self.len;
            self.push(statement, kept, grade)?;
            self.rematch(kind, i);
            return Ok(());
        };
        if self.outdone(kind, i, grade) {
            self.improve(i, grade, kept);
            self.rematch(kind, i);
        }
        Ok(())
    }

    // Whether row i is unsettled, and this grade is better than its own.
    fn outdone<K: Kind<Grade = G>>(&self, kind: &K, i: usize, grade: G) -> bool
        requires { i < self.now.len }
        ensures { Outdone (K.Kind.algebra kind.now) (view self.now) i grade result }
    {
        if self.is_settled(i) {
            return false;
        }
        !kind.no_worse(self.grades[i], grade)
    }
}
