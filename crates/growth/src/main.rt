//! Settles a block file over as many rows as the first argument says, and prints how the run stands. Then explains the last settled
//! statement as often as the second argument says, if there is one, and prints how many steps that has: to measure how time grows.
#![tactic(auto)]

use blockfile::{StoredKind, load};
use explanation::explain;
use reasoner::settle;
use runs::Stand;
use saturation::{Row, Table};
use standpoint::{ACCEPTED, Kind, Letter, Odds, Statement, Step, Tally};
use std::io::Read;
use std::{env, io};

const LONGEST_FILE: u64 = 65_536;

// How many rows there are, and how often the last settled statement is explained.
#[derive(Clone, Copy)]
struct Measure {
    rows: usize,
    explained: u32,
}

// What stands where no step is written.
fn any_step<K: Kind>(kind: &K) -> Step<K::Grade> {
    Step {
        rule: ACCEPTED,
        first: 0,
        second: 0,
        third: 0,
        statement: Statement::CONTRADICTION,
        grade: kind.start(),
    }
}

fn explain_last<K: StoredKind>(
    rt: &HostRuntime,
    kind: &K,
    reasoner: &mut Table<'_, K::Grade>,
    times: u32,
) -> io::Result<()> {
    let settled = reasoner.settled;
    let Some((statement, _)) = settled.checked_sub(1).and_then(|k| reasoner.settled_at(k)) else {
        return Ok(());
    };
    let mut buffer = vec![in rt.alloc(); any_step(kind); settled]?;
    let mut steps = Ok(0);
    for _ in 0..times {
        steps = explain(reasoner, statement, &mut buffer);
    }
    match steps {
        Ok(count) => println!(rt; "explained {count}"),
        Err(_) => println!(rt; "refused"),
    }
}

fn run<K: StoredKind>(rt: &HostRuntime, kind: &K, measure: Measure, file: &[u8]) -> io::Result<()> {
    let mut memory = vec![in rt.alloc(); Row::EMPTY; measure.rows]?;
    let mut grades = vec![in rt.alloc(); kind.start(); measure.rows]?;
    let mut reasoner = Table::make(&mut memory, &mut grades);
    if load(&mut reasoner, kind, file).is_err() {
        return println!(rt; "refused");
    }
    match settle(&mut reasoner, kind, u32::MAX) {
        Ok((count, Stand::Ended)) => println!(rt; "ended {count}")?,
        Ok((count, Stand::Full)) => println!(rt; "full {count}")?,
        Ok((count, Stand::Open)) => println!(rt; "open {count}")?,
        Err(_) => println!(rt; "refused")?,
    }
    if measure.explained == 0 {
        return Ok(());
    }
    explain_last(rt, kind, &mut reasoner, measure.explained)
}

fn main(rt: HostRuntime) -> io::Result<()> {
    let mut words = env::args(&rt)?.skip(1);
    let Some(rows) = words.next().and_then(|word| word.parse().ok()) else {
        return println!(rt; "usage: growth ROWS [TIMES] < FILE");
    };
    let explained = words.next().and_then(|word| word.parse().ok()).unwrap_or(0);
    let measure = Measure { rows, explained };
    let mut file = Vec::new(rt.alloc());
    rt.stdin().take(LONGEST_FILE).read_to_end(&mut file)?;
    match file.get(4).copied() {
        Some(Letter::KIND_BYTE) => run(&rt, &Letter, measure, &file),
        Some(Odds::KIND_BYTE) => run(&rt, &Odds, measure, &file),
        _ => run(&rt, &Tally, measure, &file),
    }
}
