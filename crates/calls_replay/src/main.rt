// Makes the calls on a reading's buffers that standard input has, and writes a line for each, in hexadecimal: the operation, the refusal's number or 0, and a
// checksum of what the call may write. Standard output is to be the Rust's lines; `oracle/run SOURCES sample` writes both.
//
// A call is 336 bytes. The first 16: the operation (0 the expected point, 1 the corrector, 2 auto adjust, 3 the missing indices, 4 what the forest is asked for),
// shingle size, base dimension, position or gap (of 4: in these three places 1 where the state, the reading, the last descriptor is to lack its last byte), the
// yes/no of an anomaly, of differences and of time, 1 where the relative index is -1, the lengths of point, median or last expected point, last anomalous point,
// high, low and the buffer that may be written (of auto adjust: 1 where the state is to lack its last byte), two zeros. Then 5 rows of 16 floats, 4 bytes each, the
// lowest first, in the order of the lengths. Behind a call of auto adjust stands the state, 1310 bytes; behind one of 4 the state, the reading and the last
// descriptor, 23 bytes each.
#![tactic(auto)]

use std::io;
use std::io::{ErrorKind, Read};

// The bytes of a stored state.
const STATE_LENGTH: usize = 1310;

// The 80 floats behind the head.
fn reals(b: &[u8; 336]) -> [f32; 80] {
    let mut out = [0.0f32; 80];
    let (fours, _) = b[16..].as_chunks::<4>();
    for (x, four) in out.iter_mut().zip(fours) {
        *x = ieee::f32_from_bits(u32::from_le_bytes(*four));
    }
    out
}

fn below_zero(b: u8) -> i32 {
    if b == 0 {
        return 0;
    }
    -1
}

// The first bytes of a call.
#[derive(Drop)]
struct Head {
    shingle_size: usize,
    base_dimension: usize,
    at: usize,
    has_anomaly: u8,
    use_difference: u8,
    time_augmented: u8,
    relative_index: i32,
    point: usize,
    second: usize,
    third: usize,
    high: usize,
    low: usize,
    out: usize,
}

fn head_of(b: &[u8; 336]) -> Head {
    Head {
        shingle_size: usize::from(b[1]),
        base_dimension: usize::from(b[2]),
        at: usize::from(b[3]),
        has_anomaly: b[4],
        use_difference: b[5],
        time_augmented: b[6],
        relative_index: below_zero(b[7]),
        point: usize::from(b[8]),
        second: usize::from(b[9]),
        third: usize::from(b[10]),
        high: usize::from(b[11]),
        low: usize::from(b[12]),
        out: usize::from(b[13]),
    }
}

// Of each of these `n` elements from `at` on, or all where there are fewer.
fn row<T>(x: &[T], at: usize, n: usize) -> &[T] {
    x.get(at..).and_then(|rest| rest.get(..n)).unwrap_or(x)
}

fn mix(sum: u64, bits: u64) -> u64 {
    sum.rotate_left(7).wrapping_add(bits)
}

fn mix_floats(x: &[f32; 16]) -> u64 {
    x.iter()
        .fold(0, |sum, x| mix(sum, u64::from(ieee::f32_to_bits(*x))))
}

fn mix_bytes(x: &[u8; STATE_LENGTH]) -> u64 {
    x.iter().fold(0, |sum, b| mix(sum, u64::from(*b)))
}

fn mix_numbers(x: &[usize; 8]) -> u64 {
    x.iter().fold(0, |sum, n| mix(sum, *n as u64))
}

// The refusal's number or 0, and the checksum.
#[derive(Drop)]
struct Said {
    number: u8,
    sum: u64,
}

fn expected_point(h: Head, x: &[f32], w: &[f64]) -> Said {
    let mut out = [-1.0f32; 16];
    let n = h.out % 17;
    let number = c_calls::krcf_expected_point(
        h.shingle_size,
        h.base_dimension,
        h.at,
        row(x, 0, h.point),
        row(w, 48, h.high),
        row(w, 64, h.low),
        row(x, 16, h.second),
        &mut out[..n],
    );
    Said {
        number,
        sum: mix_floats(&out),
    }
}

fn apply_basic_corrector(h: Head, x: &[f32]) -> Said {
    let mut out = [-1.0f32; 16];
    let n = h.out % 17;
    let number = c_calls::krcf_apply_basic_corrector(
        row(x, 0, h.point),
        h.at,
        h.shingle_size,
        h.base_dimension,
        h.has_anomaly,
        row(x, 16, h.second),
        row(x, 32, h.third),
        h.relative_index,
        h.use_difference,
        h.time_augmented,
        &mut out[..n],
    );
    Said {
        number,
        sum: mix_floats(&out),
    }
}

// Fills `out`; no where the input ends before.
fn fill(input: &mut impl Read, out: &mut [u8]) -> io::Result<bool> {
    match input.read_exact(out) {
        Ok(()) => Ok(true),
        Err(e) if e.kind() == ErrorKind::UnexpectedEof => Ok(false),
        Err(e) => Err(e),
    }
}

fn update_auto_adjust(input: &mut impl Read, h: Head, x: &[f32]) -> io::Result<Said> {
    let mut state = [0u8; STATE_LENGTH];
    fill(input, &mut state)?;
    let n = STATE_LENGTH - h.out % 2;
    let number = c_calls::krcf_update_auto_adjust(
        &mut state[..n],
        h.shingle_size,
        row(x, 0, h.point),
    );
    Ok(Said {
        number,
        sum: mix_bytes(&state),
    })
}

fn likely_missing_indices(h: Head, w: &[f64]) -> Said {
    let mut out = [9usize; 8];
    let n = h.out % 9;
    let number = c_calls::krcf_likely_missing_indices(
        h.shingle_size,
        h.base_dimension,
        h.at,
        row(w, 48, h.high),
        row(w, 64, h.low),
        &mut out[..n],
    );
    Said {
        number,
        sum: mix_numbers(&out),
    }
}

fn asked_of_forest(input: &mut impl Read, h: Head) -> io::Result<Said> {
    let mut state = [0u8; STATE_LENGTH];
    fill(input, &mut state)?;
    let mut reading = [0u8; 23];
    fill(input, &mut reading)?;
    let mut last = [0u8; 23];
    fill(input, &mut last)?;
    let mut out = [9usize; 8];
    let s = STATE_LENGTH - h.shingle_size % 2;
    let r = 23 - h.base_dimension % 2;
    let l = 23 - h.at % 2;
    let n = h.out % 9;
    let number = c_calls::krcf_asked_of_forest(
        &state[..s],
        &reading[..r],
        &last[..l],
        &mut out[..n],
    );
    Ok(Said {
        number,
        sum: mix_numbers(&out),
    })
}

fn call(input: &mut impl Read, b: &[u8; 336]) -> io::Result<Said> {
    let h = head_of(b);
    let singles = reals(b);
    let doubles = singles.map(ieee::widen);
    let x = &singles[..];
    let w = &doubles[..];
    match b[0] {
        0 => Ok(expected_point(h, x, w)),
        1 => Ok(apply_basic_corrector(h, x)),
        2 => update_auto_adjust(input, h, x),
        3 => Ok(likely_missing_indices(h, w)),
        _ => asked_of_forest(input, h),
    }
}

// Up to 1000 calls, to the end of the input.
fn main(rt: HostRuntime) -> io::Result<()> {
    let mut input = rt.reader();
    for _ in 0..1000 {
        let mut bytes = [0u8; 336];
        if !fill(&mut input, &mut bytes)? {
            return Ok(());
        }
        let said = call(&mut input, &bytes)?;
        println!(rt; "{:02x}{:02x}{:016x}", bytes[0], said.number, said.sum)?;
    }
    Ok(())
}
