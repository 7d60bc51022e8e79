// The calls on a stored statistic.
use crate::input::{Answer, Case, byte, double, is_answer, only, read_full, word_at};
use std::io;
use std::io::Read;

// What stands behind a yes/no before the call that writes it.
const BEFORE: u8 = 0xa5;

// A call's number, and what stands behind its yes/no afterwards. The case's argument is 1 for a number and 0 for an empty statistic; where the call says
// otherwise the number is 255, as no case's is.
fn told(case: Case, number: u8, out: &[u8; 9]) -> Answer {
    if out[0] == byte(case.a) {
        return Answer {
            number,
            result: word_at(out, 1),
        };
    }
    only(255)
}

fn mean(case: Case, state: &[u8]) -> Answer {
    let mut out = [BEFORE; 9];
    let number = c_interface::krcf_deviation_mean(state, &mut out);
    told(case, number, &out)
}

fn deviation(case: Case, state: &[u8]) -> Answer {
    let mut out = [BEFORE; 9];
    let number = c_interface::krcf_deviation_deviation(state, &mut out);
    told(case, number, &out)
}

fn is_empty(state: &[u8]) -> Answer {
    let mut out = [BEFORE; 1];
    let number = c_interface::krcf_deviation_is_empty(state, &mut out);
    Answer {
        number,
        result: u64::from(out[0]),
    }
}

// An operation that there is not answers 255.
fn call(case: Case, state: &mut [u8]) -> Answer {
    let operation = case.operation;
    match operation {
        32 => only(c_interface::krcf_deviation_new(double(case.a), state)),
        33 => only(c_interface::krcf_deviation_update(state, double(case.a))),
        34 => only(c_interface::krcf_deviation_reset(state)),
        35 => mean(case, state),
        36 => deviation(case, state),
        37 => is_empty(state),
        _ => only(255),
    }
}

pub(crate) fn is_same(from: &mut impl Read, case: Case) -> io::Result<bool> {
    let mut state = [0u8; 36];
    let mut after = [0u8; 36];
    if read_full(from, &mut state)? != 36 {
        return Ok(false);
    }
    if read_full(from, &mut after)? != 36 {
        return Ok(false);
    }
    Ok(is_answer(case, call(case, &mut state)) && state == after)
}
