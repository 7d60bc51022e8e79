// The training load on bytes: a seed and a count in, a line for each score out, as the score watch reads it. A run is fed its input byte by byte and says when it
// needs no more; a program above has only to read and to write.
#![tactic(auto)]

ghost use Rattle.std.specs.Prelude.{◌≡◌, ◌+◌, ◌*◌, ◌%◌, ◌^◌, ◌<◌, ◌≤◌, length};
ghost use Rattle.io.specs.Digits.{hex_digit_ascii as Digits·glyph};
ghost use Rattle.score_rows.specs.Steps as Steps;
ghost use Rattle.training_lines.specs.Output as Output;
ghost use Rattle.training_lines.specs.Feeding as Feeding;

const LINE_END: u8 = b'\n';

const SEED_DIGITS: u32 = 16;

const COUNT_DIGITS: u32 = 5;

const MOST_LINES: u64 = 65536;

// The bytes that a run reads at most: both lines with their ends.
pub const MOST_BYTES: u32 = 23;

// Room for the longest load: 65,536 lines of nine bytes.
pub const ROOM: usize = 589824;

// A run between two bytes of its input: in its first line, with the number read so far and how many digits that has; in its second, behind the seed; with both read;
// or bad, with the number of the line.
#[derive(Clone, Copy)]
pub enum Run {
    Seed(u64, u32),
    Count(u64, u64, u32),
    Both(u64, u64),
    Bad(u64),
}

// A number with one more digit of the base behind it, modulo 2^64.
fn pushed(n: u64, base: u64, digit: u64) -> u64
    ensures { result ≡ (n * base + digit) % 2 ^ 64 }
{
    std::num::wrapping_add_u64(training_scores::wrapping_mul_u64(n, base), digit)
}

// A byte of the first line.
fn push_seed(seed: u64, digits: u32, b: u8) -> Run
    ensures { result ≡ Feeding.seed_step seed digits b }
{
    if b == LINE_END {
        if digits == SEED_DIGITS {
            return Run::Count(seed, 0, 0);
        }
        return Run::Bad(1);
    }
    let d = score_lines::digit(b);
    if digits < SEED_DIGITS {
        if d < 16 {
            return Run::Seed(pushed(seed, 16, d), digits + 1);
        }
        return Run::Bad(1);
    }
    Run::Bad(1)
}

// A byte of the second line.
#[tactic(auto, unfolding(crate::specs::Feeding::count_step, score_lines::specs::Output::is_digit))]
fn push_count(seed: u64, count: u64, digits: u32, b: u8) -> Run
    ensures { result ≡ Feeding.count_step seed count digits b }
{
    if b == LINE_END {
        if 1 <= digits {
            return Run::Both(seed, count);
        }
        return Run::Bad(2);
    }
    let d = score_lines::digit(b);
    if digits < COUNT_DIGITS {
        if d < 10 {
            return Run::Count(seed, pushed(count, 10, d), digits + 1);
        }
        return Run::Bad(2);
    }
    Run::Bad(2)
}

// The digit's character, in lower case (`char::from_digit` would answer an option of a `char`).
fn glyph(d: u64) -> u8
    requires { d < 16 }
    ensures { result ≡ Digits·glyph d }
{
    if d < 10 {
        return 48 + d as u8;
    }
    87 + d as u8
}

// The line of a score: the eight digits of its bits, and a line end.
fn score_line(x: f32) -> [u8; 9]
    ensures { result ≡ Output.score_line x }
{
    let a = ieee::f32_to_bits(x) as u64;
    let b = a / 16;
    let c = b / 16;
    let d = c / 16;
    let e = d / 16;
    let f = e / 16;
    let g = f / 16;
    let h = g / 16;
    [
        glyph(h % 16),
        glyph(g % 16),
        glyph(f % 16),
        glyph(e % 16),
        glyph(d % 16),
        glyph(c % 16),
        glyph(b % 16),
        glyph(a % 16),
        LINE_END,
    ]
}

// Writes the line of a score from the place `at`, and answers the place behind it.
fn put_score(out: &mut [u8], at: usize, x: f32) -> usize
    requires { at + 9 ≤ length out.old }
    ensures { Steps.Put out.old at (Output.score_line x) result out.new }
{
    let end = at + 9;
    out[at..end].copy_from_slice(&score_line(x));
    end
}

// Writes the scores of a seed, as many as the count, and answers the place behind them.
fn put_load(seed: u64, count: usize, out: &mut [u8]) -> usize
    requires { 9 * count ≤ length out.old }
    ensures { Steps.Put out.old 0 (Output.load seed count) result out.new }
{
    let mut state = seed;
    let mut at = 0usize;
    for i in 0..count {
        let after = training_scores::step(state);
        at = put_score(out, at, after.score);
        state = after.state;
    }
    at
}

// What both lines ask for: the load, unless it is longer than a run of the score watch.
fn put_asked(seed: u64, count: u64, out: &mut [u8]) -> usize
    requires { 589824 ≤ length out.old }
    ensures { Steps.Put out.old 0 (Feeding.asked seed count) result out.new }
{
    if count <= MOST_LINES {
        return put_load(seed, count as usize, out);
    }
    score_rows::write_bad_line(out, 0, 2)
}

// A run that has read nothing.
#[tactic(auto, unfolding(crate::specs::Feeding::begin))]
pub fn begin() -> Run
    ensures { result ≡ Feeding.begin }
{
    Run::Seed(0, 0)
}

// The run behind one more byte of its input.
#[tactic(auto, unfolding(crate::specs::Feeding::step))]
pub fn push(run: Run, b: u8) -> Run
    ensures { result ≡ Feeding.step run b }
{
    match run {
        Run::Seed(seed, digits) => push_seed(seed, digits, b),
        Run::Count(seed, count, digits) => push_count(seed, count, digits, b),
        Run::Both(_, _) => run,
        Run::Bad(_) => run,
    }
}

// Whether the run needs no more of its input.
pub fn is_over(run: Run) -> bool
    ensures { result ≡ Feeding.is_over run }
{
    match run {
        Run::Seed(_, _) => false,
        Run::Count(_, _, _) => false,
        Run::Both(_, _) => true,
        Run::Bad(_) => true,
    }
}

// The end of what is read: the load, or the line that is faulty or missing. Answers where in the lent buffer it ends.
pub fn finish(run: Run, out: &mut [u8; ROOM]) -> usize
    ensures { Feeding.Prints (Feeding.closing run) out.old result out.new }
{
    close(run, out)
}

fn close(run: Run, out: &mut [u8]) -> usize
    requires { 589824 ≤ length out.old }
    ensures { Steps.Put out.old 0 (Feeding.closing run) result out.new }
{
    match run {
        Run::Seed(_, digits) => {
            if digits == SEED_DIGITS {
                return score_rows::write_bad_line(out, 0, 2);
            }
            score_rows::write_bad_line(out, 0, 1)
        }
        Run::Count(seed, count, digits) => {
            if 1 <= digits {
                return put_asked(seed, count, out);
            }
            score_rows::write_bad_line(out, 0, 2)
        }
        Run::Both(seed, count) => put_asked(seed, count, out),
        Run::Bad(line) => score_rows::write_bad_line(out, 0, line),
    }
}

// A run that is fed its input prints the output of it, and needs no more than its first two lines. Nothing calls these: the check asks for their proofs.
fn whole_run()
    ensures { Feeding.Whole }
{}

fn no_more()
    ensures { Feeding.NoMore }
{}
