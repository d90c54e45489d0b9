//! Compares what the library makes of each recorded file with the recorded print.
#![tactic(auto)]

use answers::print_worked;
use blockfile::{LoadFault, StoredKind, load};
use reasoner::settle;
use saturation::{Row, Table};
use settled_text::{refused_line, settled_line};
use standpoint::{Kind, Letter, Odds, Tally};
use std::alloc::{AllocError, Global};
use std::{fs, io};

mod answers;

const ROWS: usize = 4096;

fn refused_so(fault: LoadFault, expected: &[u8]) -> bool {
    let mut text = [0u8; 80];
    refused_line(fault, &mut text).is_ok_and(|len| &text[..len] == expected)
}

// What is left of the expected print after line k, if it begins with that line.
fn after_line<'a, K: StoredKind>(
    reasoner: &Table<'_, K::Grade>,
    k: usize,
    expected: &'a [u8],
) -> Option<&'a [u8]> {
    let mut text = [0u8; 80];
    let len = settled_line::<K>(reasoner, k, &mut text).ok()?;
    expected.strip_prefix(&text[..len])
}

fn settled_so<K: StoredKind>(reasoner: &Table<'_, K::Grade>, expected: &[u8]) -> bool {
    let mut rest = expected;
    // A line is asked for by its number.
    for k in 0..=ROWS {
        let Some(after) = after_line::<K>(reasoner, k, rest) else {
            return false;
        };
        if after.len() == rest.len() {
            break;
        }
        rest = after;
    }
    rest.is_empty()
}

fn agrees<K: StoredKind>(
    heap: Global,
    kind: &K,
    file: &[u8],
    expected: &[u8],
) -> Result<bool, AllocError> {
    let mut rows = vec![in heap; Row::EMPTY; ROWS]?;
    let mut grades = vec![in heap; kind.start(); ROWS]?;
    let mut reasoner = Table::make(&mut rows, &mut grades);
    if let Err(fault) = load(&mut reasoner, kind, file) {
        return Ok(refused_so(fault, expected));
    }
    // How many were settled, and how the run stands, is in the lines.
    match settle(&mut reasoner, kind, u32::MAX) {
        Ok((_count, _stand)) => Ok(settled_so::<K>(&reasoner, expected)),
        Err(_) => Ok(false),
    }
}

// The switch of `settled`, with another use: a shared one would need a trait for each use of a kind.
fn agrees_by_kind(heap: Global, file: &[u8], expected: &[u8]) -> Result<bool, AllocError> {
    match file.get(4).copied() {
        Some(Letter::KIND_BYTE) => agrees(heap, &Letter, file, expected),
        Some(Odds::KIND_BYTE) => agrees(heap, &Odds, file, expected),
        _ => agrees(heap, &Tally, file, expected),
    }
}

fn main(rt: HostRuntime) -> io::Result<()> {
    let heap = rt.alloc();
    let names = fs::read_to_string(&rt, "files.txt")?;
    let all = names.lines().count();
    let mut agree = 0u64;
    for name in names.lines() {
        let file = fs::read(&rt, format!(in heap; "{name}.blk")?)?;
        let expected = fs::read(&rt, format!(in heap; "{name}.out")?)?;
        if agrees_by_kind(heap, &file, &expected)? {
            agree = agree.saturating_add(1);
        } else {
            println!(rt; "{name} differs")?;
        }
    }
    println!(rt; "{agree} of {all} files agree")?;
    print_worked(&rt)
}
