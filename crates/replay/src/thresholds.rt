// The calls on a stored thresholder.
ghost use Rattle.std.specs.Prelude.{◌≡◌, length};

use crate::input::{Answer, Case, byte, double, is_answer, only, read_full, single, size, word_at};
use std::io;
use std::io::Read;

// The calls that answer a number about a state, 65 to 70, write it to the front of `out`.
fn question(case: Case, state: &[u8], out: &mut [u8]) -> u8
    requires { length out.old ≡ 8 }
{
    let operation = case.operation;
    let x = single(case.a);
    match operation {
        65 => c_interface::krcf_thresholder_is_deviation_ready(state, &mut out[..1]),
        66 => c_interface::krcf_threshold(state, &mut out[..4]),
        67 => c_interface::krcf_primary_grade(state, x, &mut out[..4]),
        68 => c_interface::krcf_primary_threshold_and_grade(state, x, out),
        69 => c_interface::krcf_threshold_and_grade(state, x, byte(case.b), size(case.c), out),
        _ => {
            let factor = single(case.b);
            let method = byte(case.c);
            let shingle_size = size(case.d);
            c_interface::krcf_threshold_and_grade_with_factor(
                state,
                x,
                factor,
                method,
                shingle_size,
                out,
            )
        }
    }
}

fn asked(case: Case, state: &[u8]) -> Answer {
    let mut out = [0u8; 8];
    let number = question(case, state, &mut out);
    Answer {
        number,
        result: word_at(&out, 0),
    }
}

// The updates, 71 to 74.
fn update(case: Case, state: &mut [u8]) -> u8 {
    let operation = case.operation;
    let x = single(case.a);
    match operation {
        71 => c_interface::krcf_update_threshold(state, x),
        72 => c_interface::krcf_update_primary(state, double(case.a)),
        73 => c_interface::krcf_update_both(state, x, single(case.b)),
        _ => c_interface::krcf_update(state, x, single(case.b), single(case.c)),
    }
}

// The setters, 75 to 79. An operation that there is not answers 255, as no case does.
fn set(operation: u8, x: f32, state: &mut [u8]) -> u8 {
    match operation {
        75 => c_interface::krcf_set_score_differencing(state, x),
        76 => c_interface::krcf_set_z_factor(state, x),
        77 => c_interface::krcf_set_lower_threshold(state, x),
        78 => c_interface::krcf_set_absolute_threshold(state, x),
        79 => c_interface::krcf_set_initial_threshold(state, x),
        _ => 255,
    }
}

fn call(case: Case, state: &mut [u8]) -> Answer {
    if case.operation == 64 {
        return only(c_interface::krcf_thresholder_new(double(case.a), byte(case.b), state));
    }
    if case.operation < 71 {
        return asked(case, state);
    }
    if case.operation < 75 {
        return only(update(case, state));
    }
    only(set(case.operation, single(case.a), state))
}

pub(crate) fn is_same(from: &mut impl Read, case: Case) -> io::Result<bool> {
    let mut state = [0u8; 149];
    let mut after = [0u8; 149];
    if read_full(from, &mut state)? != 149 {
        return Ok(false);
    }
    if read_full(from, &mut after)? != 149 {
        return Ok(false);
    }
    Ok(is_answer(case, call(case, &mut state)) && state == after)
}
