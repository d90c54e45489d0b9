// Single rows: looking for one, taking one, changing one.
ghost use Rattle.std.specs.Prelude.{◌≡◌, ℕ, ◌+◌, ◌<◌, ◌≤◌, false, length, if◌then◌else◌, is_ok, MatchOption, slice_index_or};
ghost use Rattle.saturation.specs.Tables.{view, Absent, Same, Found, has_room, pushed, taken_row, improved, statement_at, turn_at, row_at};
ghost use Rattle.saturation.specs.Searching.{Premise};
ghost use Rattle.std.specs.Option.{is_some};

use crate::buckets::enter;
use crate::row::{Chain, Kept, Row};
use crate::table::Table;
use standpoint::Statement;

// Every row is taken.
#[derive(Clone, Copy)]
pub struct NoRow;

impl<'a, G: Copy> Table<'a, G> {
    // The row that holds the statement, or none.
    pub fn find(&self, statement: Statement) -> Option<usize>
        ensures { Found (view self.now) statement result }
    {
        if self.len == 0 {
            return None;
        }
        let mut at = self.last_in(self.bucket(statement));
        while let Some(k) = at {
            let row = self.rows[k as usize];
            if row.statement == statement {
                return Some(k as usize);
            }
            at = row.index.link;
        }
        None
    }

    // Takes one more row, if there is one, for a statement that no row holds yet.
    pub(crate) fn push(&mut self, statement: Statement, kept: Kept, grade: G) -> Result<(), NoRow>
        requires { Absent (view self.old) statement }
        ensures same { Same self.old self.new }
        ensures room { is_ok result ≡ has_room (view self.old) }
        ensures state { view self.new ≡ (if is_ok result then pushed (view self.old) (taken_row (view self.old) statement kept) grade else view self.old) }
    {
        let at = self.len;
        if at >= self.capacity() {
            return Err(NoRow);
        }
        let bucket = self.bucket(statement);
        let free = self.rows[at];
        let row = Row {
            statement,
            kept,
            place: None,
            listed: 0,
            winner: at as u32,
            index: Chain {
                head: free.index.head,
                link: self.last_in(bucket),
            },
            ..free
        };
        self.grades[at] = grade;
        enter(self.rows, at, row, bucket);
        self.len = at + 1;
        Ok(())
    }

    // Another grade for row i, with the step that gave it.
    pub(crate) fn improve(&mut self, i: usize, grade: G, kept: Kept)
        requires { i < self.old.len }
        ensures same { Same self.old self.new }
        ensures state { view self.new ≡ improved (view self.old) i grade kept }
    {
        self.rows[i].kept = kept;
        self.grades[i] = grade;
    }

    // Whether row i is settled.
    pub(crate) fn is_settled(&self, i: usize) -> bool
        requires { i < self.now.len }
        ensures { result ≡ is_some (row_at (view self.now) i).place }
    {
        let place = self.rows[i].place;
        place.is_some()
    }

    // The k-th settled statement with its grade, from 0; none past the last.
    pub fn settled_at(&self, k: usize) -> Option<(Statement, G)>
        ensures { MatchOption result (self.now.settled ≤ k) (λ p. (k < self.now.settled) × Premise (view self.now) k p) }
    {
        if k >= self.settled {
            return None;
        }
        Some((self.settled_statement(k), self.settled_grade(k)))
    }

    // The k-th settled statement. Apart from its grade, which is read only where a rule gives something.
    pub(crate) fn settled_statement(&self, k: usize) -> Statement
        requires { k < self.now.settled }
        ensures { result ≡ statement_at (view self.now) (turn_at (view self.now) k) }
    {
        self.rows[self.rows[k].turn as usize].statement
    }

    // The grade of the k-th settled statement.
    pub(crate) fn settled_grade(&self, k: usize) -> G
        requires { k < self.now.settled }
        ensures { (d : G) → result ≡ slice_index_or self.now.grades.now (turn_at (view self.now) k) d }
    {
        self.grades[self.rows[k].turn as usize]
    }
}
