// Judges the readings of standard input with `krcf_detect_and_modify` and writes one line for each: its title, the refusal's number or 0, the verdict's 14 bytes, a
// checksum of the state's bytes afterwards, and one of the three buffers. Standard input has the readings of oracle/exits.txt, and standard output is to be the
// Rust's lines, both as `oracle/run SOURCES sample` writes them.
//
// A reading is 1783 bytes: the title (40), the state (1310), the reading (23) and the last descriptor (23) as the crate layout has them, the lengths of the
// buffers of D floats, of base floats and of the neighbours (one each), then 12 rows of 8 floats, 4 bytes each, the lowest first.
#![tactic(auto)]

use std::io;
use std::io::{ErrorKind, Read};

// Where the parts of a reading begin: the state, the reading, the last descriptor, the lengths.
const STATE: usize = 40;

const READING: usize = 1350;

const LAST: usize = 1373;

const LENGTHS: usize = 1396;

// The 96 floats behind the head.
fn reals(b: &[u8; 1783]) -> [f32; 96] {
    let mut out = [0.0f32; 96];
    let (fours, _) = b[LENGTHS + 3..].as_chunks::<4>();
    for (x, four) in out.iter_mut().zip(fours) {
        *x = ieee::f32_from_bits(u32::from_le_bytes(*four));
    }
    out
}

// Of each of these `n` elements from `at` on, or all where there are fewer.
fn row<T>(x: &[T], at: usize, n: usize) -> &[T] {
    x.get(at..).and_then(|rest| rest.get(..n)).unwrap_or(x)
}

fn mix(sum: u64, bits: u64) -> u64 {
    sum.rotate_left(7).wrapping_add(bits)
}

fn mix_bytes(bytes: &[u8]) -> u64 {
    bytes.iter().fold(0, |sum, b| mix(sum, u64::from(*b)))
}

fn mix_buffers(expected: &[f32; 8], high: &[f64; 8], low: &[f64; 8]) -> u64 {
    let mut sum = 0u64;
    for i in 0..8 {
        sum = mix(sum, u64::from(ieee::f32_to_bits(expected[i])));
        sum = mix(sum, ieee::f64_to_bits(high[i]));
        sum = mix(sum, ieee::f64_to_bits(low[i]));
    }
    sum
}

fn write_verdict(rt: &impl Print, verdict: &[u8; 14]) -> io::Result<()> {
    for b in verdict {
        print!(rt; "{b:02x}")?;
    }
    Ok(())
}

fn write_line(
    rt: &impl Print,
    b: &[u8; 1783],
    number: u8,
    verdict: &[u8; 14],
    buffers: u64,
) -> io::Result<()> {
    rt.write_all(&b[..40])?;
    print!(rt; "{number} ")?;
    write_verdict(rt, verdict)?;
    println!(rt; " {:016x} {buffers:016x}", mix_bytes(&b[STATE..READING]))
}

fn show(rt: &impl Print, given: &[u8; 1783]) -> io::Result<()> {
    let mut b = *given;
    let singles = reals(given);
    let doubles = singles.map(ieee::widen);
    let x = &singles[..];
    let w = &doubles[..];
    // A length is at most 8.
    let d = (given[LENGTHS] % 9) as usize;
    let base = (given[LENGTHS + 1] % 9) as usize;
    let near = (given[LENGTHS + 2] % 9) as usize;
    // The buffers hold minus one, so that what a reading leaves alone shows.
    let mut expected = [-1.0f32; 8];
    let mut high = [-1.0f64; 8];
    let mut low = [-1.0f64; 8];
    let mut verdict = [0u8; 14];
    let number = c_judging::krcf_detect_and_modify(
        &mut b[STATE..READING],
        &given[READING..LAST],
        &given[LAST..LENGTHS],
        row(x, 0, d),
        row(x, 8, base),
        row(x, 16, base),
        row(x, 24, base),
        row(x, 32, d),
        row(x, 40, d),
        row(w, 48, d),
        row(w, 56, d),
        row(x, 64, d),
        row(w, 72, d),
        row(w, 80, d),
        row(x, 88, near),
        &mut expected[..d],
        &mut high[..d],
        &mut low[..d],
        &mut verdict,
    );
    let buffers = mix_buffers(&expected, &high, &low);
    write_line(rt, &b, number, &verdict, buffers)
}

// Fills `out`; no where the input ends before.
fn fill(input: &mut impl Read, out: &mut [u8]) -> io::Result<bool> {
    match input.read_exact(out) {
        Ok(()) => Ok(true),
        Err(e) if e.kind() == ErrorKind::UnexpectedEof => Ok(false),
        Err(e) => Err(e),
    }
}

// Up to 32 readings, to the end of the input.
fn main(rt: HostRuntime) -> io::Result<()> {
    let mut input = rt.reader();
    for _ in 0..32 {
        let mut bytes = [0u8; 1783];
        if !fill(&mut input, &mut bytes)? {
            return Ok(());
        }
        show(&rt, &bytes)?;
    }
    Ok(())
}
