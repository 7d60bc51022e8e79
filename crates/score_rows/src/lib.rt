// What the score watch and the export watch print: the lines of a sheet, each written whole or not at all.
#![tactic(auto)]

ghost use Rattle.std.specs.Prelude.{◌≡◌, [], ◌∷◌, ◌+◌, ◌≤◌, ◌<◌, leb, length};
ghost use Rattle.score_rows.specs.Text as Text;
ghost use Rattle.score_rows.specs.Sheet as Sheet;
ghost use Rattle.score_rows.specs.Steps as Steps;

use basicthresholder::Graded;
use score_kinds::{Counts, Kind};
use types::Refusal;

// A part of a run's input, and room for what it prints: that of the longest line for each byte of it, since a byte can end a line.
pub const PART: usize = 8192;

pub const ROOM: usize = 688128;

const LONGEST: usize = 84;

const LINE_END: u8 = b'\n';

// "line threshold grade" and a line end: what a run prints first.
#[tactic(auto, unfolding(crate::specs::Text::header))]
pub fn header() -> [u8; 21]
    ensures { result ≡ Text.header }
{
    *b"line threshold grade\n"
}

// Each of these writes bytes over `out` from the place `at`, and answers the place behind them.
fn put(out: &mut [u8], at: usize, b: u8) -> usize
    requires { at < length out.old }
    ensures { Steps.Put out.old at (b ∷ []) result out.new }
{
    out[at] = b;
    at + 1
}

fn put_all(out: &mut [u8], at: usize, bytes: &[u8]) -> usize
    requires { at + length bytes.now ≤ length out.old }
    ensures { Steps.Put out.old at bytes.now result out.new }
{
    let end = at + bytes.len();
    out[at..end].copy_from_slice(bytes);
    end
}

fn put_decimal(out: &mut [u8], at: usize, n: u64) -> usize
    requires { at + 20 ≤ length out.old }
    ensures { Steps.Put out.old at (Text.decimal n) result out.new }
{
    let mut text = [0u8; 20];
    let k = io::decimal(n, &mut text);
    put_all(out, at, &text[..k])
}

fn put_bits(out: &mut [u8], at: usize, x: f32) -> usize
    requires { at + 8 ≤ length out.old }
    ensures { Steps.Put out.old at (Text.bits x) result out.new }
{
    let mut text = [0u8; 16];
    let k = io::hex(ieee::f32_to_bits(x) as u64, 8, &mut text);
    put_all(out, at, &text[..k])
}

fn put_graded(out: &mut [u8], at: usize, graded: Graded) -> usize
    requires { at + 17 ≤ length out.old }
    ensures { Steps.Put out.old at (Text.graded graded) result out.new }
{
    let a = put_bits(out, at, graded.threshold);
    let b = put(out, a, b' ');
    put_bits(out, b, graded.grade)
}

fn put_shown(out: &mut [u8], at: usize, kind: Kind) -> usize
    requires { at + 17 ≤ length out.old }
    ensures { Steps.Put out.old at (Text.shown kind) result out.new }
{
    match kind {
        Kind::Skipped => put_all(out, at, b"- -"),
        Kind::Quiet(graded) => put_graded(out, at, graded),
        Kind::Raised(graded) => put_graded(out, at, graded),
    }
}

fn put_row(out: &mut [u8], at: usize, number: u64, kind: Kind) -> usize
    requires { at + 84 ≤ length out.old }
    ensures { Steps.Put out.old at (Text.row number kind) result out.new }
{
    let a = put_decimal(out, at, number);
    let b = put(out, a, b' ');
    let c = put_shown(out, b, kind);
    put(out, c, LINE_END)
}

// "bad line " and the number: how either kind of bad line begins.
fn put_bad(out: &mut [u8], at: usize, number: u64) -> usize
    requires { at + 29 ≤ length out.old }
    ensures { Steps.Put out.old at (Text.bad number) result out.new }
{
    let a = put_all(out, at, b"bad line ");
    put_decimal(out, a, number)
}

fn put_bad_row(out: &mut [u8], at: usize, number: u64, why: Refusal) -> usize
    requires { at + 84 ≤ length out.old }
    ensures { Steps.Put out.old at (Text.bad_row number why) result out.new }
{
    let a = put_bad(out, at, number);
    let b = put(out, a, b' ');
    let c = put_decimal(out, b, why.number() as u64);
    put(out, c, LINE_END)
}

fn put_counts(out: &mut [u8], at: usize, counts: Counts) -> usize
    requires { at + 84 ≤ length out.old }
    ensures { Steps.Put out.old at (Text.counts counts) result out.new }
{
    let a = put_all(out, at, b"quiet ");
    let b = put_decimal(out, a, counts.quiet as u64);
    let c = put_all(out, b, b" raised ");
    let d = put_decimal(out, c, counts.raised as u64);
    let e = put_all(out, d, b" skipped ");
    let f = put_decimal(out, e, counts.skipped as u64);
    put(out, f, LINE_END)
}

// Whether the longest line fits from there on.
fn has_room(length: usize, at: usize) -> bool
    ensures { result ≡ leb (at + 84) length }
{
    if at <= length {
        return LONGEST <= length - at;
    }
    false
}

// Each of these writes its line over `out` from the place `at` and answers the place behind it; without room for the longest line it writes nothing
// and answers `at`.
pub fn write_row(out: &mut [u8], at: usize, number: u64, kind: Kind) -> usize
    ensures { Text.Written out.old at (Text.row number kind) result out.new }
{
    if has_room(out.len(), at) {
        return put_row(out, at, number, kind);
    }
    at
}

pub fn write_bad_line(out: &mut [u8], at: usize, number: u64) -> usize
    ensures { Text.Written out.old at (Text.bad_line number) result out.new }
{
    if has_room(out.len(), at) {
        let a = put_bad(out, at, number);
        return put(out, a, LINE_END);
    }
    at
}

pub fn write_bad_row(out: &mut [u8], at: usize, number: u64, why: Refusal) -> usize
    ensures { Text.Written out.old at (Text.bad_row number why) result out.new }
{
    if has_room(out.len(), at) {
        return put_bad_row(out, at, number, why);
    }
    at
}

pub fn write_counts(out: &mut [u8], at: usize, counts: Counts) -> usize
    ensures { Text.Written out.old at (Text.counts counts) result out.new }
{
    if has_room(out.len(), at) {
        return put_counts(out, at, counts);
    }
    at
}

// The three counts of a sheet add up to its lines. Nothing calls it: the check asks for its proof.
fn counts_add_up()
    ensures { Sheet.AddUp }
{}
