//! Performs recorded calls and compares the answers with the recorded ones.
#![tactic(auto)]

use fault::Fault;
use performing::perform_case;
use reading::read_cases;
use score::Score;
use std::fs;

mod answer;
mod basis;
mod call;
mod fault;
mod kinds;
mod loading;
mod meaning;
mod performing;
mod play;
mod reading;
mod replayed;
mod replaying;
mod score;
mod words;

fn main(rt: HostRuntime) -> Result<(), Fault> {
    run(&rt)
}

fn run(rt: &HostRuntime) -> Result<(), Fault> {
    let text = fs::read_to_string(rt, "calls.txt")?;
    let cases = read_cases(rt.alloc(), text.as_str())?;
    let mut score = Score::default();
    for case in &cases {
        perform_case(rt, case, &mut score)?;
    }
    print(rt, score)
}

fn print(rt: &HostRuntime, score: Score) -> Result<(), Fault> {
    if let Some(difference) = score.first_difference {
        let case = difference.case;
        let line = difference.line;
        println!(rt; "the answer of case {case:03} at line {line} differs")?;
    }
    let agree = score.agree;
    let answers = score.answers;
    println!(rt; "{agree} of {answers} answers agree")?;
    Ok(())
}
