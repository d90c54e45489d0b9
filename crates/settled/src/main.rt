//! Reads a block file from standard input and prints what was settled, or why it was refused.
#![tactic(auto)]

use blockfile::{LoadFault, StoredKind, load};
use reasoner::settle;
use saturation::{Row, Table};
use settled_text::{refused_line, settled_line};
use standpoint::{Kind, Letter, Odds, Refusal, Tally};
use std::alloc::AllocError;
use std::io;
use std::io::{BufWriter, Read, Write};
use std::process::ExitCode;

const ROWS: usize = 4096;

const LONGEST_FILE: u64 = 65_536;

// Why the program ends with status 1. An enum with a From for each source: no message is ever printed.
#[derive(Drop)]
enum Stop {
    Refused,
    NoMemory,
    Failed(io::Error),
}

impl From<io::Error> for Stop {
    fn from(error: io::Error) -> Stop {
        Stop::Failed(error)
    }
}

impl From<AllocError> for Stop {
    fn from(_: AllocError) -> Stop {
        Stop::NoMemory
    }
}

impl From<Refusal> for Stop {
    fn from(_: Refusal) -> Stop {
        Stop::Refused
    }
}

fn print_refused(rt: &HostRuntime, fault: LoadFault) -> Result<(), Stop> {
    let mut text = [0u8; 80];
    let len = refused_line(fault, &mut text)?;
    rt.write_all(&text[..len])?;
    Ok(())
}

// Prints line k and answers its length.
fn print_line<K: StoredKind, W: Write>(
    out: &mut W,
    reasoner: &Table<'_, K::Grade>,
    k: usize,
) -> Result<usize, Stop> {
    let mut text = [0u8; 80];
    let len = settled_line::<K>(reasoner, k, &mut text)?;
    out.write_all(&text[..len])?;
    Ok(len)
}

fn print_settled<K: StoredKind>(
    rt: &HostRuntime,
    reasoner: &Table<'_, K::Grade>,
) -> Result<(), Stop> {
    let mut out = BufWriter::new(rt.alloc(), rt.stdout())?;
    // A line is asked for by its number.
    for k in 0..=ROWS {
        if print_line::<K, _>(&mut out, reasoner, k)? == 0 {
            break;
        }
    }
    out.flush()?;
    Ok(())
}

fn run<K: StoredKind>(rt: &HostRuntime, kind: &K, file: &[u8]) -> Result<(), Stop> {
    let mut rows = vec![in rt.alloc(); Row::EMPTY; ROWS]?;
    let mut grades = vec![in rt.alloc(); kind.start(); ROWS]?;
    let mut reasoner = Table::make(&mut rows, &mut grades);
    if let Err(fault) = load(&mut reasoner, kind, file) {
        print_refused(rt, fault)?;
        return Err(Stop::Refused);
    }
    // How many were settled, and how the run stands, is in the lines.
    let (_count, _stand) = settle(&mut reasoner, kind, u32::MAX)?;
    print_settled::<K>(rt, &reasoner)
}

// One byte more than the longest sound file is enough to refuse a longer one.
// The switch on the kind byte stands where it is used: a shared one would need a trait for each use of a kind.
fn run_input(rt: &HostRuntime) -> Result<(), Stop> {
    let mut file = Vec::new(rt.alloc());
    rt.stdin().take(LONGEST_FILE + 1).read_to_end(&mut file)?;
    match file.get(4).copied() {
        Some(Letter::KIND_BYTE) => run(rt, &Letter, &file),
        Some(Odds::KIND_BYTE) => run(rt, &Odds, &file),
        _ => run(rt, &Tally, &file),
    }
}

// A stop is told by the status alone.
fn main(rt: HostRuntime) -> ExitCode {
    match run_input(&rt) {
        Ok(()) => ExitCode::SUCCESS,
        Err(_) => ExitCode::FAILURE,
    }
}
