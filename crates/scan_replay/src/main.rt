// Makes the noise passes and box tests of standard input and writes a line for each: the operation, the result in hexadecimal, and how many coordinates were read.
// Standard output is to be what looking at every coordinate gives; `oracle/run SOURCES sample` writes both.
//
// A case is six numbers of 2 bytes, the lowest first: the operation (0 the noise pass, 1 the box), the base or the start position, and the lengths of four slices, up
// to 1,100 each: scale, shift, deviations and point; or box, scale, point and other point. Their floats follow one after the other, 4 bytes each, the lowest first.
#![tactic(auto)]

ghost use Rattle.std.specs.Prelude.{◌≤◌};

use std::io;
use std::io::{ErrorKind, Read};

// The bytes of a case's head, and the most that can follow it.
const HEAD: usize = 12;

const ROOM: usize = 17600;

// The six numbers of a head.
fn numbers(b: &[u8; HEAD]) -> [u16; 6] {
    let mut out = [0u16; 6];
    let (twos, _) = b.as_chunks::<2>();
    for (n, two) in out.iter_mut().zip(twos) {
        *n = u16::from_le_bytes(*two);
    }
    out
}

fn length(n: u16) -> usize
    ensures { result ≤ 1100 }
{
    usize::from(n.min(1100))
}

// The floats that these bytes are.
fn reals(b: &[u8]) -> [f32; 4400] {
    let mut out = [0.0f32; 4400];
    let (fours, _) = b.as_chunks::<4>();
    for (x, four) in out.iter_mut().zip(fours) {
        *x = ieee::f32_from_bits(u32::from_le_bytes(*four));
    }
    out
}

// The result's bits, and how many coordinates were read.
#[derive(Drop)]
struct Said {
    bits: u32,
    read: usize,
}

fn pass(base: usize, scale: &[f32], shift: &[f32], deviations: &[f32], point: &[f32]) -> Said {
    let passed = uncertainty_box::centered_transform_pass(base, scale, shift, deviations, point);
    Said {
        bits: ieee::f32_to_bits(passed.factor),
        read: passed.read,
    }
}

fn box_test(start: usize, edges: &[f32], scale: &[f32], point: &[f32], other: &[f32]) -> Said {
    let held = uncertainty_box::within_unertainty_box(edges, start, scale, point, other);
    Said {
        bits: u32::from(held.within),
        read: held.read,
    }
}

// The operation is one byte.
fn operation(head: [u16; 6]) -> u16 {
    head[0] % 0x100
}

fn answer(head: [u16; 6], x: &[f32; 4400]) -> Said {
    let (first, rest) = x.split_at(length(head[2]));
    let (second, rest) = rest.split_at(length(head[3]));
    let (third, rest) = rest.split_at(length(head[4]));
    let (fourth, _) = rest.split_at(length(head[5]));
    let at = usize::from(head[1]);
    if operation(head) == 0 {
        return pass(at, first, second, third, fourth);
    }
    box_test(at, first, second, third, fourth)
}

// Fills `out`; no where the input ends before.
fn fill(input: &mut impl Read, out: &mut [u8]) -> io::Result<bool> {
    match input.read_exact(out) {
        Ok(()) => Ok(true),
        Err(e) if e.kind() == ErrorKind::UnexpectedEof => Ok(false),
        Err(e) => Err(e),
    }
}

// Reads the floats of a case and writes its line; no where the input ends before.
fn replayed(rt: &impl Print, input: &mut impl Read, head: [u16; 6]) -> io::Result<bool> {
    let n = length(head[2]) + length(head[3]) + length(head[4]) + length(head[5]);
    let mut bytes = [0u8; ROOM];
    let floats = &mut bytes[..4 * n];
    if !fill(input, floats)? {
        return Ok(false);
    }
    let said = answer(head, &reals(floats));
    println!(rt;
        "{:x} {:08x} {:04}",
        operation(head) % 16,
        said.bits,
        said.read
    )?;
    Ok(true)
}

// Up to a million cases, to the end of the input.
fn main(rt: HostRuntime) -> io::Result<()> {
    let mut input = rt.reader();
    for _ in 0..1000000 {
        let mut head = [0u8; HEAD];
        if !fill(&mut input, &mut head)? {
            return Ok(());
        }
        if !replayed(&rt, &mut input, numbers(&head))? {
            return Ok(());
        }
    }
    Ok(())
}
