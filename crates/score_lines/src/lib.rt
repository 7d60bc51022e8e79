// The score watch on bytes: lines of eight hexadecimal digits in, rows of thresholds and grades out. A run is fed its input in parts, cut anywhere, and
// hands back what it prints; a program above has only to read and to write.
#![tactic(auto)]

ghost use Rattle.std.specs.Prelude.{◌≡◌, ◌+◌, ◌*◌, ◌≤◌, ◌<◌, length, take};
ghost use Rattle.score_lines.specs.Output as Output;
ghost use Rattle.score_lines.specs.Feeding as Feeding;
ghost use Rattle.score_rows.specs.Steps as Steps;

use basicthresholder::BasicThresholder;
use score_kinds::Counts;
use score_rows::{PART, ROOM};

const LINE_END: u8 = b'\n';

const MOST_LINES: u64 = 65536;

// A run between two bytes of its input. `part` is the line under way: its digits behind a leading 1, so that 1 alone is a line with no byte yet.
// A run is over once it has met a bad line.
#[derive(Clone, Copy)]
pub struct Run {
    pub thresholder: BasicThresholder,
    pub counts: Counts,
    pub part: u64,
    pub over: bool,
}

// What a call that prints answers: the run after it, and where in the lent buffer the written bytes end.
#[derive(Clone, Copy)]
pub struct Fed {
    pub run: Run,
    pub written: usize,
}

// The value of a hexadecimal digit of either case; 16 for any other byte, so that one comparison serves every base (`char::to_digit` takes the base).
#[tactic(auto, unfolding(crate::specs::Output::digit_of))]
pub fn digit(b: u8) -> u64
    ensures value { result ≡ Output.digit_of b }
    ensures bound { result ≤ 16 }
{
    match b {
        b'0'..=b'9' => (b - b'0') as u64,
        b'A'..=b'F' => (b - (b'A' - 10)) as u64,
        b'a'..=b'f' => (b - (b'a' - 10)) as u64,
        _ => 16,
    }
}

// The line under way with one more byte; 0 where that makes it malformed.
#[tactic(auto, unfolding(crate::specs::Feeding::pushed))]
fn pushed(part: u64, b: u8) -> u64
    ensures { result ≡ Feeding.pushed part b }
{
    if part < 0x1_0000_0000 {
        let d = digit(b);
        if d < 16 {
            return part * 16 + d;
        }
        return 0;
    }
    0
}

// The score of the line that `part` has the digits of, with so many lines before it; none where it is bad.
#[tactic(auto, unfolding(crate::specs::Feeding::line_of))]
fn line_of(before: u64, part: u64) -> Option<f32>
    ensures { result ≡ Feeding.line_of before part }
{
    if before < MOST_LINES && 0x1_0000_0000 <= part && part < 0x2_0000_0000 {
        return finite_only(ieee::f32_from_bits((part - 0x1_0000_0000) as u32));
    }
    None
}

#[tactic(auto, unfolding(crate::specs::Output::finite_only))]
fn finite_only(score: f32) -> Option<f32>
    ensures { result ≡ Output.finite_only score }
{
    ieee::is_finite(score).then_some(score)
}

// The run after a bad line.
#[tactic(auto, unfolding(crate::specs::Feeding::ended))]
fn ended(run: Run) -> Run
    ensures { result ≡ Feeding.ended run }
{
    let mut out = run;
    out.over = true;
    out
}

// The end of the line under way: its row, or that it is bad.
fn end_line(run: Run, out: &mut [u8], at: usize) -> Fed
    requires { at + 84 ≤ length out.old }
    ensures run { result.run ≡ Feeding.line_ended run }
    ensures printed { Steps.Put out.old at (Feeding.line_said run) result.written out.new }
{
    let before = score_kinds::lines(run.counts);
    match line_of(before, run.part) {
        Some(score) => {
            let thresholder = score_kinds::counted(run.thresholder, score);
            let kind = score_kinds::kind_of(run.thresholder, score);
            let end = score_rows::write_row(out, at, before + 1, kind);
            Fed {
                run: Run {
                    thresholder,
                    counts: score_kinds::with_line(run.counts, kind),
                    part: 1,
                    over: false,
                },
                written: end,
            }
        }
        None => {
            let end = score_rows::write_bad_line(out, at, before + 1);
            Fed {
                run: ended(run),
                written: end,
            }
        }
    }
}

// The counts, unless the run is over.
fn total(run: Run, out: &mut [u8], at: usize) -> Fed
    requires { at + 84 ≤ length out.old }
    ensures run { result.run ≡ Feeding.total_run run }
    ensures printed { Steps.Put out.old at (Feeding.total_said run) result.written out.new }
{
    if run.over {
        return Fed { run, written: at };
    }
    let end = score_rows::write_counts(out, at, run.counts);
    Fed {
        run: ended(run),
        written: end,
    }
}

// The bytes of a part of the input, one by one.
fn read(run: Run, input: &[u8], out: &mut [u8]) -> Fed
    requires { 84 * length input.now ≤ length out.old }
    ensures run { result.run ≡ Feeding.fed run input.now }
    ensures printed { Steps.Put out.old 0 (Feeding.printed run input.now) result.written out.new }
{
    let mut state = run;
    let mut to = 0usize;
    for b in input {
        if state.over {
            return Fed {
                run: state,
                written: to,
            };
        }
        if *b == LINE_END {
            let after = end_line(state, out, to);
            state = after.run;
            to = after.written;
            continue;
        }
        let part = pushed(state.part, *b);
        if part == 0 {
            let end = score_rows::write_bad_line(out, to, score_kinds::lines(state.counts) + 1);
            return Fed {
                run: ended(state),
                written: end,
            };
        }
        state.part = part;
    }
    Fed {
        run: state,
        written: to,
    }
}

// The end of the input: a last line without a line end is judged, then the counts.
fn close(run: Run, out: &mut [u8]) -> Fed
    requires { 168 ≤ length out.old }
    ensures run { result.run ≡ Feeding.closed run }
    ensures printed { Steps.Put out.old 0 (Feeding.closing run) result.written out.new }
{
    if run.over {
        return Fed { run, written: 0 };
    }
    if run.part == 1 {
        return total(run, out, 0);
    }
    let last = end_line(run, out, 0);
    total(last.run, out, last.written)
}

// A run that has read nothing.
#[tactic(auto, unfolding(crate::specs::Feeding::begin))]
pub fn begin() -> Run
    ensures { result ≡ Feeding.begin }
{
    Run {
        thresholder: score_kinds::settings(),
        counts: score_kinds::no_lines(),
        part: 1,
        over: false,
    }
}

// Reads the first n bytes of a part of the input, or all where n is more. The arrays' types say that what is printed has room; slices would need a `requires`.
pub fn feed(run: Run, input: &[u8; PART], n: usize, out: &mut [u8; ROOM]) -> Fed
    ensures { Feeding.Prints (Feeding.fed run (take n input.now)) (Feeding.printed run (take n input.now)) out.old result out.new }
{
    let bytes: &[u8] = input;
    if n < PART {
        return read(run, &bytes[..n], out);
    }
    read(run, bytes, out)
}

// The end of the input.
pub fn finish(run: Run, out: &mut [u8; ROOM]) -> Fed
    ensures { Feeding.Prints (Feeding.closed run) (Feeding.closing run) out.old result out.new }
{
    close(run, out)
}

// However the input is cut, the header and what `feed` and `finish` print are together the output of the whole input, whose counts add up to its lines. Nothing
// calls it: the check asks for its proof.
fn whole_run()
    ensures whole { Feeding.Whole }
    ensures add_up { Feeding.AddUp }
{}
