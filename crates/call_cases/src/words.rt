// The words of a line, taken one by one; `None` where the next word is not what is wanted.
use crate::kinds::{Base, KindName, Surcharges};
use standpoint::{Sizes, Statement, Step};
use std::str::{FromStr, SplitWhitespace};

// The words that are left of a line.
#[derive(Drop)]
pub struct Words<'a> {
    rest: SplitWhitespace<'a>,
}

impl<'a> Words<'a> {
    pub(crate) fn new(text: &'a str) -> Words<'a> {
        Words {
            rest: text.split_whitespace(),
        }
    }

    pub(crate) fn word(&mut self) -> Option<&'a str> {
        self.rest.next()
    }

    pub(crate) fn number<N: FromStr>(&mut self) -> Option<N>
    where
        N::Err: Drop,
    {
        self.word()?.parse::<N>().ok()
    }

    // Each number goes to its field in the order of the line, here and below.
    pub(crate) fn sizes(&mut self) -> Option<Sizes> {
        Some(Sizes {
            standpoints: self.number()?,
            concepts: self.number()?,
            roles: self.number()?,
            individuals: self.number()?,
        })
    }

    pub(crate) fn statement(&mut self) -> Option<Statement> {
        Some(Statement {
            shape: self.number()?,
            first: self.number()?,
            second: self.number()?,
            third: self.number()?,
            fourth: self.number()?,
            fifth: self.number()?,
        })
    }

    pub(crate) fn step(&mut self) -> Option<Step<u32>> {
        Some(Step {
            rule: self.number()?,
            first: self.number()?,
            second: self.number()?,
            third: self.number()?,
            statement: self.statement()?,
            grade: self.number()?,
        })
    }

    pub(crate) fn kind_name(&mut self) -> Option<KindName> {
        let mut surcharges = Surcharges::Zero;
        for _ in 0..3 {
            match self.word()? {
                "S" => surcharges = surcharges.around(self.number()?)?,
                name => {
                    let base = base(name)?;
                    return Some(KindName { base, surcharges });
                }
            }
        }
        None
    }
}

fn base(name: &str) -> Option<Base> {
    match name {
        "T" => Some(Base::Tally),
        "L" => Some(Base::Letter),
        "O" => Some(Base::Odds),
        _ => None,
    }
}
