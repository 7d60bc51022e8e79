// Asks the library what the Rust was asked, and counts the answers that differ. Standard input has the questions with the Rust's answers, as
// `oracle/run SOURCES sample` writes them; nothing of them is in here.
#![tactic(auto)]

mod input;
mod numbers;
mod statistics;
mod thresholds;

use input::Case;
use std::io;
use std::io::Read;

// More cases than a sample has.
const MOST: u64 = 1_000_000;

// Whether the library answers a case as the Rust did. Which of the three kinds it is, its operation says.
fn is_same(from: &mut impl Read, case: Case) -> io::Result<bool> {
    if case.operation < 32 {
        return Ok(numbers::is_same(case));
    }
    if case.operation < 64 {
        return statistics::is_same(from, case);
    }
    thresholds::is_same(from, case)
}

// Whether the next case is answered so, or none at the end of the input. A case that is cut off counts as one that differs.
fn turn(from: &mut impl Read) -> io::Result<Option<bool>> {
    let mut bytes = [0u8; 48];
    match input::read_full(from, &mut bytes)? {
        0 => Ok(None),
        48 => Ok(Some(is_same(from, input::read(&bytes))?)),
        _ => Ok(Some(false)),
    }
}

#[derive(Clone, Copy)]
struct Count {
    cases: u64,
    differ: u64,
}

// Reads to the end of the input, at most MOST cases.
fn all(from: &mut impl Read) -> io::Result<Count> {
    let mut count = Count {
        cases: 0,
        differ: 0,
    };
    for _ in 0..MOST {
        let Some(is_same) = turn(from)? else {
            break;
        };
        count.cases = count.cases.saturating_add(1);
        count.differ = count.differ.saturating_add(u64::from(!is_same));
    }
    Ok(count)
}

fn main(rt: HostRuntime) -> io::Result<()> {
    let count = all(&mut rt.reader())?;
    println!(rt; "{} cases, {} differ", count.cases, count.differ)
}
