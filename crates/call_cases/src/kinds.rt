// The names of kinds, and the codes of their grades.
use crate::fault::Fault;
use blockfile::StoredKind;

// A kind as a case names it.
#[derive(Clone, Copy)]
pub struct KindName {
    pub base: Base,
    pub surcharges: Surcharges,
}

// A kind that is no surcharge.
#[derive(Clone, Copy)]
pub enum Base {
    Tally,
    Letter,
    Odds,
}

// The surcharges over a kind, by the codes of their fixed grades.
// No list, since each number of them makes a type of its own, and a third is refused.
#[derive(Clone, Copy)]
pub enum Surcharges {
    Zero,
    One(u32),
    Two { outer: u32, inner: u32 },
}

impl Surcharges {
    // These with one more below them.
    pub(crate) fn around(self, code: u32) -> Option<Surcharges> {
        match self {
            Surcharges::Zero => Some(Surcharges::One(code)),
            Surcharges::One(outer) => Some(Surcharges::Two { outer, inner: code }),
            Surcharges::Two { .. } => None,
        }
    }
}

// The grade of a code.
pub(crate) fn grade<K: StoredKind>(code: u32) -> Result<K::Grade, Fault> {
    K::decode(code).map_err(|_| Fault::NoGrade(code))
}
