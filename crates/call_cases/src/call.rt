// The lines of a case.
use standpoint::{Sizes, Statement, Step};

// A line that calls, with the answer that was recorded for it, if there is one.
#[derive(Clone, Copy)]
pub struct Line<'a, C> {
    // Counted from 1.
    pub number: usize,
    pub call: C,
    pub recorded: Option<&'a str>,
}

// A call that needs no reasoner; grades are given by their codes, here and below.
#[derive(Clone, Copy)]
pub enum Call {
    Check(Sizes),
    Accept(Statement, u32),
    Step(Step<u32>),
    Verdict,
    Start,
    Join(u32, u32),
    NoWorse(u32, u32),
}

// A call of a reasoner.
#[derive(Clone, Copy)]
pub enum ReasonerCall<'a> {
    Replayed(replay::Call<u32>),
    // The name of a block file.
    Load(&'a str),
}
