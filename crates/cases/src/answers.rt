// The worked cases, as a program performs them.
use blockfile::StoredKind;
use reasoner::Answer;
use replay::Done;
use standpoint::{Letter, Odds, Refusal, Tally, TallyGrade};
use std::io;
use worked::{Joins, Worked, worked_cases};

// The code of the grade that the last call gives; none where it gives none.
fn said<K: StoredKind>(outcomes: &[Result<Done<K::Grade>, Refusal>]) -> Option<u32> {
    match outcomes.last() {
        Some(Ok(Done::Said(Answer::Graded(grade)))) => Some(K::encode(*grade)),
        _ => None,
    }
}

fn print_grade(rt: &HostRuntime, what: &str, code: Option<u32>) -> io::Result<()> {
    match code {
        Some(code) => println!(rt; "{what}: {code}"),
        None => println!(rt; "{what}: no grade"),
    }
}

// What begin came to and how many were settled, with nothing accepted on so many rows.
fn print_bare(
    rt: &HostRuntime,
    rows: u32,
    outcomes: &[Result<Done<TallyGrade>, Refusal>; 3],
) -> io::Result<()> {
    match (outcomes[0], outcomes[1]) {
        (Ok(_), Ok(Done::Settled(count, _))) => println!(rt; "{rows} rows: {count} settled"),
        (Err(refusal), _) => {
            let number = refusal.number();
            println!(rt; "{rows} rows: refused {number}")
        }
        _ => println!(rt; "{rows} rows: not settled"),
    }
}

fn print_all_bare(rt: &HostRuntime, worked: &Worked) -> io::Result<()> {
    print_bare(rt, 3, &worked.on_three)?;
    print_bare(rt, 4, &worked.on_four)?;
    print_bare(rt, 5, &worked.on_five)?;
    print_bare(rt, 6, &worked.on_six)?;
    print_bare(rt, 7, &worked.on_seven)
}

fn print_joins(rt: &HostRuntime, joins: Joins) -> io::Result<()> {
    let once = joins.odds_once;
    let left = joins.odds_from_left;
    let other = joins.odds_other;
    let right = joins.odds_from_right;
    let surcharge = joins.surcharge;
    let held = joins.tally_held;
    println!(rt; "joins: {once} {left} {other} {right} {surcharge} {held}")
}

// Performs the worked cases, and prints what they come to.
pub(crate) fn print_worked(rt: &HostRuntime) -> io::Result<()> {
    let worked = worked_cases(&Tally);
    print_all_bare(rt, &worked)?;
    print_grade(rt, "clash of tallies", said::<Tally>(&worked.tallies))?;
    print_grade(rt, "clash of letters", said::<Letter>(&worked.letters))?;
    print_grade(rt, "clash of odds", said::<Odds>(&worked.odds))?;
    print_grade(rt, "detour", said::<Tally>(&worked.detour))?;
    print_joins(rt, worked.joins)
}
