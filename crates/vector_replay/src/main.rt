// Makes the vector calls of standard input and writes a line for each: the operation, the refusal's number or 0, the answer's bits, and a checksum of the four
// lists afterwards. Standard input has the calls, and standard output is to be the Rust's lines, both as `oracle/run SOURCES sample` writes them.
//
// A call is 40 words of 8 bytes, the lowest first: the operation, the lengths of high and low, a size (index, number or base), the gap, a float, two zeros, then
// high, low, other high and other low with room for 8 floats each. The others are as long as high.
#![tactic(auto)]

ghost use Rattle.std.specs.Prelude.{◌≤◌};

use std::io;
use std::io::{ErrorKind, Read};
use types::Refusal;

// The words of a call.
fn words(b: &[u8; 320]) -> [u64; 40] {
    let mut out = [0u64; 40];
    let (eights, _) = b.as_chunks::<8>();
    for (word, eight) in out.iter_mut().zip(eights) {
        *word = u64::from_le_bytes(*eight);
    }
    out
}

// Eight floats from that word on.
fn eight(w: &[u64; 40], k: usize) -> [f64; 8]
    requires { k ≤ 32 }
{
    let mut out = [0.0f64; 8];
    for (x, word) in out.iter_mut().zip(&w[k..k + 8]) {
        *x = ieee::f64_from_bits(*word);
    }
    out
}

// How long a list is, up to 8.
fn length(word: u64) -> usize
    ensures { result ≤ 8 }
{
    word.min(8) as usize
}

// A call's answer: the refusal's number or 0, and the answer's bits, 0 where it has none.
#[derive(Drop)]
struct Said {
    number: u8,
    bits: u64,
}

fn said_number(x: Result<f64, Refusal>) -> Said {
    match x {
        Ok(x) => Said {
            number: 0,
            bits: ieee::f64_to_bits(x),
        },
        Err(why) => Said {
            number: why.number(),
            bits: 0,
        },
    }
}

fn said_block(x: Result<usize, Refusal>) -> Said {
    match x {
        Ok(k) => Said {
            number: 0,
            bits: k as u64,
        },
        Err(why) => Said {
            number: why.number(),
            bits: 0,
        },
    }
}

fn said_answer(x: Result<(), Refusal>) -> Said {
    Said {
        number: types::answered(x),
        bits: 0,
    }
}

// The calls that change nothing.
fn asked(operation: u64, high: &[f64], low: &[f64], n: usize, gap: usize) -> Said {
    match operation {
        0 => said_number(divector::total(high, low)),
        1 => said_number(divector::high_low_sum(high, low, n)),
        5 => said_block(divector::max_gap_contribution(high, low, n, gap)),
        _ => said_block(divector::max_contribution(high, low, n)),
    }
}

// The calls that change high and low alone.
fn changed(operation: u64, high: &mut [f64], low: &mut [f64], n: usize, x: f64) -> Said {
    match operation {
        2 => said_answer(divector::scale(high, low, x)),
        3 => said_answer(divector::divide(high, low, n)),
        _ => said_answer(divector::normalize(high, low, x)),
    }
}

// The calls that add high and low to the others.
fn added(
    operation: u64,
    high: &[f64],
    low: &[f64],
    other_high: &mut [f64],
    other_low: &mut [f64],
    x: f64,
) -> Said {
    match operation {
        8 => said_answer(divector::add_to(high, low, other_high, other_low)),
        _ => said_answer(divector::add_to_scaled(high, low, other_high, other_low, x)),
    }
}

fn call(
    operation: u64,
    high: &mut [f64],
    low: &mut [f64],
    other_high: &mut [f64],
    other_low: &mut [f64],
    n: usize,
    gap: usize,
    x: f64,
) -> Said {
    match operation {
        0 | 1 | 5 | 6 => asked(operation, high, low, n, gap),
        2 | 3 | 4 => changed(operation, high, low, n, x),
        7 => said_answer(divector::assign(high, low, other_high, other_low)),
        _ => added(operation, high, low, other_high, other_low, x),
    }
}

fn mix(before: u64, x: &[f64; 8]) -> u64 {
    x.iter().fold(before, |sum, x| {
        sum.rotate_left(7).wrapping_add(ieee::f64_to_bits(*x))
    })
}

fn show(rt: &impl Print, b: &[u8; 320]) -> io::Result<()> {
    let w = words(b);
    let mut high = eight(&w, 8);
    let mut low = eight(&w, 16);
    let mut other_high = eight(&w, 24);
    let mut other_low = eight(&w, 32);
    let n = length(w[1]);
    let m = length(w[2]);
    let said = call(
        w[0],
        &mut high[..n],
        &mut low[..m],
        &mut other_high[..n],
        &mut other_low[..n],
        w[3] as usize,
        w[4] as usize,
        ieee::f64_from_bits(w[5]),
    );
    let sum = mix(mix(mix(mix(0, &high), &low), &other_high), &other_low);
    println!(rt; "{} {} {:016x} {sum:016x}", w[0], said.number, said.bits)
}

// Fills `out`; no where the input ends before.
fn fill(input: &mut impl Read, out: &mut [u8]) -> io::Result<bool> {
    match input.read_exact(out) {
        Ok(()) => Ok(true),
        Err(e) if e.kind() == ErrorKind::UnexpectedEof => Ok(false),
        Err(e) => Err(e),
    }
}

// Up to 1000 calls, to the end of the input.
fn main(rt: HostRuntime) -> io::Result<()> {
    let mut input = rt.reader();
    for _ in 0..1000 {
        let mut bytes = [0u8; 320];
        if !fill(&mut input, &mut bytes)? {
            return Ok(());
        }
        show(&rt, &bytes)?;
    }
    Ok(())
}
