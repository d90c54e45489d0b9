// Calls of a reasoner, and what a performed one came to.
use reasoner::Answer;
use runs::Stand;
use standpoint::{Sizes, Statement};

// A call with its arguments.
#[derive(Clone, Copy)]
pub enum Call<G: Clone + Copy + Drop> {
    Begin(Sizes),
    Add(Statement, G),
    Settle(u32),
    Ask(Statement),
    // On at most so many places of those that are left for steps.
    Explain(Statement, usize),
}

// What a performed call answered.
#[derive(Clone, Copy)]
pub enum Done<G: Clone + Copy + Drop> {
    Began,
    Added,
    Settled(u32, Stand),
    Said(Answer<G>),
    // So many steps, behind those that were written before.
    Explained(usize),
}
