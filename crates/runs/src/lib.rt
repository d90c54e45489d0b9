//! How a run settles statements, and the laws that every run keeps.
#![tactic(auto)]

ghost use Rattle.runs.specs.Laws.{ModelSettles, NoneIsExact, OneRun, OneSettling, OneStand, SettledIsBest};

use standpoint::Kind;

// How a run stands.
#[derive(Clone, Copy, PartialEq, Eq)]
pub enum Stand {
    // A known statement is not settled yet.
    Open,
    // Every known statement is settled.
    Ended,
    // The known statements outnumber the rows.
    Full,
}

// The laws of runs, for every kind of grade.
pub fn runs_are_lawful<K: Kind>(kind: &K)
    ensures best { SettledIsBest (K.Kind.algebra kind.now) }
    ensures none { NoneIsExact (K.Kind.algebra kind.now) }
    ensures one_run { OneRun (K.Kind.algebra kind.now) }
    ensures one_settling { OneSettling (K.Kind.algebra kind.now) }
    ensures one_stand { OneStand (K.Kind.algebra kind.now) }
    ensures model { ModelSettles (K.Kind.algebra kind.now) }
{}
