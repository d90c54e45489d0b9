// The rules of the calculus. Each has a function of its own, since what it asks of its premises is all that it is.
ghost use Rattle.std.specs.Prelude.{◌≡◌};
ghost use Rattle.standpoint.specs.Conclusions.{conclusion};
ghost use Rattle.standpoint.specs.RuleNumbers.{number_of_rule};
ghost use Rattle.standpoint.specs.Rules.{Concluded, FitsAs, listed};

use crate::premises::Premises;
use crate::statement::Statement;
pub use named::{Rule, UnknownRule};

mod bottom;
mod existentials;
mod inclusions;
mod named;
mod roles;
mod sharpenings;

impl Rule {
    // The conclusion of the rule from its premises, or none.
    pub fn conclude(self, individuals: u16, premises: Premises) -> Option<Statement>
        ensures conclusion { Concluded individuals (number_of_rule self) (listed premises) result }
        ensures fits { FitsAs individuals (listed premises) result }
    {
        self.apply(individuals, premises)
    }

    // Any other number of premises gives nothing.
    fn apply(self, individuals: u16, premises: Premises) -> Option<Statement>
        ensures { result ≡ conclusion individuals (number_of_rule self) premises }
    {
        use Premises::{One, Three, Two};
        match (self, premises) {
            (Rule::RoleTransitive, Two(p, q)) => roles::role_transitive(p, q),
            (Rule::SharperTransitive, Two(p, q)) => sharpenings::sharper_transitive(p, q),
            (Rule::SharperThanBoth, Three(p, q, r)) => sharpenings::sharper_than_both(p, q, r),
            (Rule::Lowered, Two(p, q)) => sharpenings::lowered(p, q),
            (Rule::LoweredInside, Two(p, q)) => sharpenings::lowered_inside(p, q),
            (Rule::InsideTransitive, Two(p, q)) => inclusions::inside_transitive(p, q),
            (Rule::SubsumedNested, Two(p, q)) => inclusions::subsumed_nested(p, q),
            (Rule::SubsumedPossible, Two(p, q)) => inclusions::subsumed_possible(p, q),
            (Rule::PossibleWidened, Two(p, q)) => inclusions::possible_widened(p, q),
            (Rule::NecessaryThenNested, Two(p, q)) => inclusions::necessary_then_nested(p, q),
            (Rule::NecessaryThenPossible, Two(p, q)) => inclusions::necessary_then_possible(p, q),
            (Rule::PossibleThenNested, Two(p, q)) => inclusions::possible_then_nested(p, q),
            (Rule::PossibleThenPossible, Two(p, q)) => inclusions::possible_then_possible(p, q),
            (Rule::ExistentialWidened, Three(p, q, r)) => existentials::existential_widened(
                p, q, r,
            ),
            (Rule::ExistentialChained, Three(p, q, r)) => existentials::existential_chained(
                p, q, r,
            ),
            (Rule::ExistentialMet, Two(p, q)) => existentials::existential_met(p, q),
            (Rule::ConjunctionMet, Three(p, q, r)) => inclusions::conjunction_met(p, q, r),
            (Rule::NecessaryHere, One(p)) => inclusions::necessary_here(p),
            (Rule::OfAllThings, One(p)) => inclusions::of_all_things(p),
            (Rule::ExistentialEmpty, One(p)) => bottom::existential_empty(p),
            (Rule::NecessaryEmpty, One(p)) => bottom::necessary_empty(p),
            (Rule::PossibleEmpty, One(p)) => bottom::possible_empty(p),
            (Rule::IndividualEmpty, One(p)) => bottom::individual_empty(individuals, p),
            _ => None,
        }
    }
}

// The same by number, as step lists name rules; no rule has a number below 1 or above 23.
pub(crate) fn conclude(individuals: u16, rule: u8, premises: Premises) -> Option<Statement>
    ensures { Concluded individuals rule (listed premises) result }
{
    let rule = Rule::try_from(rule).ok()?;
    rule.conclude(individuals, premises)
}
