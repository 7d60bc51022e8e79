// A case: 48 bytes, then for a call on a state that state's bytes and the bytes it is to have afterwards.
ghost use Rattle.std.specs.Io.{ReadsAtMost};
ghost use Rattle.std.specs.Prelude.{◌+◌, ◌≤◌, length};

use std::io;
use std::io::Read;

// Byte 0 is the operation, byte 1 the number that the call answers; from byte 8 on four arguments and the result, of eight bytes each, the
// lowest first. What a call does not have is 0. Operations are numbers here and in the other replays, since the files that they read have them so.
#[derive(Clone, Copy)]
pub(crate) struct Case {
    pub operation: u8,
    pub number: u8,
    pub a: u64,
    pub b: u64,
    pub c: u64,
    pub d: u64,
    pub result: u64,
}

// The eight bytes from `at` on, the lowest first.
pub(crate) fn word_at(b: &[u8], at: usize) -> u64
    requires { at + 8 ≤ length b.now }
{
    let mut word = [0u8; 8];
    word.copy_from_slice(&b[at..at + 8]);
    u64::from_le_bytes(word)
}

// Reads until `out` is full or the input ends, and tells how many bytes there were.
pub(crate) fn read_full(from: &mut impl Read, out: &mut [u8]) -> io::Result<usize>
    ensures { ReadsAtMost result out.new }
{
    let mut done = 0usize;
    while done < out.len() {
        let n = from.read(&mut out[done..])?;
        if n == 0 {
            break;
        }
        done += n;
    }
    Ok(done)
}

pub(crate) fn read(b: &[u8; 48]) -> Case {
    Case {
        operation: b[0],
        number: b[1],
        a: word_at(b, 8),
        b: word_at(b, 16),
        c: word_at(b, 24),
        d: word_at(b, 32),
        result: word_at(b, 40),
    }
}

// An argument's low byte, its low half, and all of it as what it stands for.
pub(crate) fn byte(w: u64) -> u8 {
    (w % 0x100) as u8
}

pub(crate) fn half(w: u64) -> u32 {
    (w % 0x1_0000_0000) as u32
}

pub(crate) fn single(w: u64) -> f32 {
    c_interface::krcf_f32_from_bits(half(w))
}

pub(crate) fn double(w: u64) -> f64 {
    c_interface::krcf_f64_from_bits(w)
}

pub(crate) fn size(w: u64) -> usize {
    w as usize
}

pub(crate) fn signed(n: u32) -> i32 {
    n.cast_signed()
}

// What a call answered: its number, and its result, 0 where it has none.
#[derive(Clone, Copy)]
pub(crate) struct Answer {
    pub number: u8,
    pub result: u64,
}

pub(crate) fn only(number: u8) -> Answer {
    Answer { number, result: 0 }
}

pub(crate) fn is_answer(case: Case, answer: Answer) -> bool {
    case.number == answer.number && case.result == answer.result
}
