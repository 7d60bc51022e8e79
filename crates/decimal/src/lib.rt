// A decimal as the nearest `f32`, a tie to the even one, worked out in whole numbers below 2 ^ 64.
#![tactic(auto)]

ghost use Rattle.std.specs.Prelude.{◌≡◌, false, ◌+◌, ◌*◌, ◌^◌, ◌≤◌, ◌<◌, min};
ghost use Rattle.std.specs.Float.{binary32};
ghost use Rattle.std.specs.Float.Ieee.{of_bits, round};
ghost use Rattle.std.specs.Float.Ieee.Nearest.{closest};
ghost use Rattle.decimal.specs.Nearest as Nearest;

// 10 ^ places; places beyond 6 count as 6.
fn power(places: u32) -> u64
    ensures value { result ≡ 10 ^ min places 6 }
    ensures nonzero { 1 ≤ result }
    ensures bound { result ≤ 1_000_000 }
{
    if places < 1 {
        return 1;
    }
    if places < 2 {
        return 10;
    }
    if places < 3 {
        return 100;
    }
    if places < 4 {
        return 1_000;
    }
    if places < 5 {
        return 10_000;
    }
    if places < 6 {
        return 100_000;
    }
    1_000_000
}

// a in units of twice the half, to the nearest, a tie to the even one.
fn to_nearest(a: u64, half: u64) -> u64
    requires a_bound { a < 2 ^ 63 }
    requires half_nonzero { 1 ≤ half }
    requires half_bound { half ≤ 128_000_000 }
    ensures { result ≡ closest a (2 * half) }
{
    let unit = 2 * half;
    let whole = a / unit;
    if a % unit + whole % 2 <= half {
        return whole;
    }
    whole + 1
}

// The pattern of n / ten rounded. n is doubled, eight times at once at first, until it is from 2 ^ 23 units on and below 2 ^ 24: then the whole units are the
// digits that an `f32` keeps.
// The exponent's field is added to them, so a carry out of the digits goes where it belongs.
fn pattern(n: u64, ten: u64) -> u64
    requires n_nonzero { 1 ≤ n }
    requires n_bound { n < 2 ^ 32 }
    requires ten_nonzero { 1 ≤ ten }
    requires ten_bound { ten ≤ 1_000_000 }
    ensures bound { result < 0x7f80_0000 }
    ensures value { of_bits binary32 result ≡ round binary32 false n ten }
{
    let half = ten * 128;
    let unit = ten * 256;
    let mut a = n;
    let mut field: u64 = 157;
    while a < unit * 0x8000 {
        a = a * 256;
        field = field - 8;
    }
    while a < unit * 0x80_0000 {
        a = a * 2;
        field = field - 1;
    }
    field * 0x80_0000 + to_nearest(a, half)
}

// n / 10 ^ places to the nearest `f32`, a tie to the even one; `specs/Nearest.antt` says what that means. Places beyond 6 count as 6.
pub fn to_f32(n: u32, places: u32) -> f32
    ensures { result ≡ round binary32 false n (10 ^ min places 6) }
{
    if n == 0 {
        return 0.0;
    }
    f32::from_bits(pattern(n as u64, power(places)) as u32)
}

// The rounding that `to_f32` promises is to the nearest, a tie to the even one. Nothing calls it: the check asks for its proof.
fn nearest_ties_to_even()
    ensures { Nearest.NearestDecimal }
{}
