// What the numbers of a statement name, and whether they may.
ghost use Rattle.std.specs.Prelude.{◌≡◌, Some};
ghost use Rattle.standpoint.specs.Lists.{Tells};
ghost use Rattle.standpoint.specs.Statements.{Fits, Misplaced, NamesIndividual, Sorted, Within, sorts_of};

use crate::shape::{
    CONJUNCTION_LEFT, EXISTENTIAL_LEFT, EXISTENTIAL_RIGHT, INTERSECTION_SHARPER, NESTED_INCLUSION,
    POSSIBLE_INCLUSION, ROLE_CHAIN, ROLE_INCLUSION, SHARPER,
};
use crate::sizes::Sizes;
use crate::statement::{Sort, Sorts, Statement};

impl Sorts {
    // The sorts of a shape's numbers, or none if there is no such shape.
    fn of(shape: u8) -> Option<Sorts>
        ensures { result ≡ sorts_of shape }
    {
        use Sort::{Concept, Role, Standpoint, Unused};
        let (first, second, third, fourth, fifth) = match shape {
            SHARPER => (Standpoint, Standpoint, Unused, Unused, Unused),
            INTERSECTION_SHARPER => (Standpoint, Standpoint, Standpoint, Unused, Unused),
            NESTED_INCLUSION => (Standpoint, Concept, Standpoint, Concept, Concept),
            POSSIBLE_INCLUSION => (Standpoint, Concept, Standpoint, Concept, Unused),
            EXISTENTIAL_RIGHT => (Standpoint, Concept, Role, Concept, Unused),
            EXISTENTIAL_LEFT => (Standpoint, Role, Concept, Concept, Unused),
            CONJUNCTION_LEFT => (Standpoint, Concept, Concept, Concept, Unused),
            ROLE_INCLUSION => (Standpoint, Role, Role, Unused, Unused),
            ROLE_CHAIN => (Standpoint, Role, Role, Role, Unused),
            _ => return None,
        };
        Some(Sorts {
            first,
            second,
            third,
            fourth,
            fifth,
        })
    }

    fn admit(self, sizes: &Sizes, x: Statement) -> bool
        ensures { Tells result (Sorted sizes.now (Some self) x) }
    {
        self.first.has(sizes, x.first)
            && self.second.has(sizes, x.second)
            && self.third.has(sizes, x.third)
            && self.fourth.has(sizes, x.fourth)
            && self.fifth.has(sizes, x.fifth)
    }
}

impl Statement {
    // Whether the statement has a shape, its numbers are below their sizes, and unused ones are 0.
    pub fn fits(self, sizes: &Sizes) -> bool
        ensures { Tells result (Fits sizes.now self) }
    {
        Sorts::of(self.shape).is_some_and(|sorts| sorts.admit(sizes, self))
    }

    // Whether a number other than the second of a nested inclusion is an individual.
    pub fn misplaced(self, individuals: u16) -> bool
        ensures { Tells result (Misplaced individuals self) }
    {
        let Some(sorts) = Sorts::of(self.shape) else {
            return false;
        };
        sorts.first.names_individual(individuals, self.first)
            || self.shape != NESTED_INCLUSION
                && sorts.second.names_individual(individuals, self.second)
            || sorts.third.names_individual(individuals, self.third)
            || sorts.fourth.names_individual(individuals, self.fourth)
            || sorts.fifth.names_individual(individuals, self.fifth)
    }
}

impl Sort {
    // Whether a number is below the size of this sort, or 0 where it has no use.
    fn has(self, sizes: &Sizes, number: u16) -> bool
        ensures { Tells result (Within sizes.now self number) }
    {
        match self {
            Sort::Standpoint => number < sizes.standpoints,
            Sort::Concept => number < sizes.concepts,
            Sort::Role => number < sizes.roles,
            Sort::Unused => number == 0,
        }
    }

    // Whether a number of this sort is an individual.
    fn names_individual(self, individuals: u16, number: u16) -> bool
        ensures { Tells result (NamesIndividual individuals self number) }
    {
        match self {
            Sort::Concept => number >= 2 && number - 2 < individuals,
            _ => false,
        }
    }
}
