// Kinds of grade: how well a statement is founded.
ghost use Rattle.std.specs.Prelude.{◌≡◌};
ghost use Rattle.standpoint.specs.Algebra.{Algebra, Laws};

pub use grades::{LetterGrade, OddsGrade, TallyGrade};
pub use letter::Letter;
pub use odds::Odds;
pub use surcharge::Surcharge;
pub use tally::Tally;

mod grades;
mod letter;
mod odds;
mod surcharge;
mod tally;

// A kind of grade. Its answers rest on the kind and the grades alone.
pub trait Kind {
    type Grade: Clone + Copy + Drop;

    // What the kind answers; the kind stays the same while this does.
    ghost algebra: { Self → Algebra Self.Grade };

    // The grade of a tautology.
    fn start(&self) -> Self::Grade
        ensures { result ≡ (algebra self.now).start };

    // Whether a is no worse than b.
    fn no_worse(&self, a: Self::Grade, b: Self::Grade) -> bool
        ensures { result ≡ (algebra self.now).no_worse a b };

    // The grade of what rests on both.
    fn join(&self, a: Self::Grade, b: Self::Grade) -> Self::Grade
        ensures { result ≡ (algebra self.now).join a b };

    ghost lawful: { (k : Self) → Laws (algebra k) };
}
