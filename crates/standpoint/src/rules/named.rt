// The rules by their names and their numbers.
ghost use Rattle.std.specs.Prelude.{◌≡◌, map};
ghost use Rattle.std.specs.List.{range_with_len};
ghost use Rattle.standpoint.specs.RuleNumbers.{Named, number_of_rule};
ghost use Rattle.standpoint.specs.Rules.{HasArity};
ghost use Rattle.standpoint.specs.declared.rules.named.TheConstants.Rule.{ALL};

// The rules, in the order of their numbers.
#[derive(Clone, Copy, PartialEq, Eq)]
pub enum Rule {
    RoleTransitive = 1,
    SharperTransitive,
    SharperThanBoth,
    Lowered,
    LoweredInside,
    InsideTransitive,
    SubsumedNested,
    SubsumedPossible,
    PossibleWidened,
    NecessaryThenNested,
    NecessaryThenPossible,
    PossibleThenNested,
    PossibleThenPossible,
    ExistentialWidened,
    ExistentialChained,
    ExistentialMet,
    ConjunctionMet,
    NecessaryHere,
    OfAllThings,
    ExistentialEmpty,
    NecessaryEmpty,
    PossibleEmpty,
    IndividualEmpty,
}

// A number that no rule has.
#[derive(Clone, Copy, PartialEq, Eq)]
pub struct UnknownRule(pub u8);

impl TryFrom<u8> for Rule {
    type Error = UnknownRule;

    ghost try_from_gives = { Named };

    // A match, since an enum is not made from a number by `as`.
    fn try_from(number: u8) -> Result<Rule, UnknownRule> {
        match number {
            1 => Ok(Rule::RoleTransitive),
            2 => Ok(Rule::SharperTransitive),
            3 => Ok(Rule::SharperThanBoth),
            4 => Ok(Rule::Lowered),
            5 => Ok(Rule::LoweredInside),
            6 => Ok(Rule::InsideTransitive),
            7 => Ok(Rule::SubsumedNested),
            8 => Ok(Rule::SubsumedPossible),
            9 => Ok(Rule::PossibleWidened),
            10 => Ok(Rule::NecessaryThenNested),
            11 => Ok(Rule::NecessaryThenPossible),
            12 => Ok(Rule::PossibleThenNested),
            13 => Ok(Rule::PossibleThenPossible),
            14 => Ok(Rule::ExistentialWidened),
            15 => Ok(Rule::ExistentialChained),
            16 => Ok(Rule::ExistentialMet),
            17 => Ok(Rule::ConjunctionMet),
            18 => Ok(Rule::NecessaryHere),
            19 => Ok(Rule::OfAllThings),
            20 => Ok(Rule::ExistentialEmpty),
            21 => Ok(Rule::NecessaryEmpty),
            22 => Ok(Rule::PossibleEmpty),
            23 => Ok(Rule::IndividualEmpty),
            _ => Err(UnknownRule(number)),
        }
    }
}

impl Rule {
    // Every rule, in the order of their numbers.
    pub const ALL: [Rule; 23] = [
        Rule::RoleTransitive,
        Rule::SharperTransitive,
        Rule::SharperThanBoth,
        Rule::Lowered,
        Rule::LoweredInside,
        Rule::InsideTransitive,
        Rule::SubsumedNested,
        Rule::SubsumedPossible,
        Rule::PossibleWidened,
        Rule::NecessaryThenNested,
        Rule::NecessaryThenPossible,
        Rule::PossibleThenNested,
        Rule::PossibleThenPossible,
        Rule::ExistentialWidened,
        Rule::ExistentialChained,
        Rule::ExistentialMet,
        Rule::ConjunctionMet,
        Rule::NecessaryHere,
        Rule::OfAllThings,
        Rule::ExistentialEmpty,
        Rule::NecessaryEmpty,
        Rule::PossibleEmpty,
        Rule::IndividualEmpty,
    ];

    // The number by which the rule is known; those of `ALL` are 1 to 23 in turn.
    pub fn number(self) -> u8
        ensures value { result ≡ number_of_rule self }
        ensures all { map number_of_rule ALL ≡ range_with_len 1 23 }
    {
        self as u8
    }

    // How many premises the rule has.
    pub fn arity(self) -> u8
        ensures { HasArity (number_of_rule self) result }
    {
        match self {
            Rule::SharperThanBoth
            | Rule::ExistentialWidened
            | Rule::ExistentialChained
            | Rule::ConjunctionMet => 3,
            Rule::NecessaryHere
            | Rule::OfAllThings
            | Rule::ExistentialEmpty
            | Rule::NecessaryEmpty
            | Rule::PossibleEmpty
            | Rule::IndividualEmpty => 1,
            _ => 2,
        }
    }
}
