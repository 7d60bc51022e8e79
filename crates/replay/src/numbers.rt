// Root, floor, narrowing, conversions and the choices of util.rs.
use crate::input::{Case, double, half, signed, single, size};

fn bits32(x: f32) -> u64 {
    u64::from(c_interface::krcf_f32_to_bits(x))
}

fn bits64(x: f64) -> u64 {
    c_interface::krcf_f64_to_bits(x)
}

// Operations 0 to 4. 3 is the pattern itself, taken for a float and back.
fn of_singles(operation: u8, x: f32, y: f32) -> f32 {
    match operation {
        0 => c_interface::krcf_floor(x),
        1 => c_interface::krcf_maxf32(x, y),
        2 => c_interface::krcf_minf32(x, y),
        3 => x,
        _ => c_interface::krcf_absf32(x),
    }
}

// 5 and 6, which is again the pattern itself.
fn of_double(operation: u8, x: f64) -> f64 {
    if operation == 5 {
        return c_interface::krcf_sqrt(x);
    }
    x
}

// The conversions, 7 to 12. Of an operation that there is not the answer is one that no case has.
fn converted(operation: u8, a: u64) -> u64 {
    match operation {
        7 => bits32(c_interface::krcf_narrow(double(a))),
        8 => bits64(c_interface::krcf_widen(single(a))),
        9 => bits32(c_interface::krcf_i32_to_f32(signed(half(a)))),
        10 => bits64(c_interface::krcf_i32_to_f64(signed(half(a)))),
        11 => bits32(c_interface::krcf_u32_to_f32(half(a))),
        12 => bits64(c_interface::krcf_usize_to_f64(size(a))),
        _ => 0xffff_ffff_ffff_ffff,
    }
}

fn result(operation: u8, a: u64, b: u64) -> u64 {
    if operation < 5 {
        return bits32(of_singles(operation, single(a), single(b)));
    }
    if operation < 7 {
        return bits64(of_double(operation, double(a)));
    }
    converted(operation, a)
}

pub(crate) fn is_same(case: Case) -> bool {
    result(case.operation, case.a, case.b) == case.result
}
