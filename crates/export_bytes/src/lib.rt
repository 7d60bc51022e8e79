// The export watch on bytes: a cabinet's CSV export in, rows of thresholds and grades out. A run is fed its input in parts, cut anywhere, and hands back what it
// prints; nothing of the input is kept. A program above has only to read and to write.
#![tactic(auto)]

ghost use Rattle.std.specs.Prelude.{◌≡◌, ◌+◌, ◌*◌, ◌≤◌, length, take};
ghost use Rattle.score_rows.specs.Steps as Steps;
ghost use Rattle.export_rows.specs.Taking as Taking;
ghost use Rattle.export_bytes.specs.Feeding as Feeding;

use csv_rows::Scan;
use export_rows::{Course, Line};
use score_rows::{PART, ROOM};

// A run between two bytes of its input: where in a row it is, and how the rows before it went. `course.ending` tells whether it goes on, and why not.
#[derive(Clone, Copy)]
pub struct Run {
    pub scan: Scan,
    pub course: Course,
}

// What a call that prints answers: the run after it, and where in the lent buffer the written bytes end.
#[derive(Clone, Copy)]
pub struct Fed {
    pub run: Run,
    pub written: usize,
}

// Writes what the row with that number prints over `out` from the place `at`, and answers the place behind it.
fn write_line(out: &mut [u8], at: usize, number: u64, line: Line) -> usize
    requires { at + 84 ≤ length out.old }
    ensures { Steps.Put out.old at (Taking.text number line) result out.new }
{
    match line {
        Line::Nothing => at,
        Line::Shown(kind) => score_rows::write_row(out, at, number, kind),
        Line::Full => score_rows::write_bad_line(out, at, number),
        Line::Faulty(why) => score_rows::write_bad_row(out, at, number, why),
    }
}

// A part of the input, row by row. Most rows are other drawers', so what these do stands apart.
fn read(run: Run, input: &[u8], out: &mut [u8]) -> Fed
    requires { 84 * length input.now ≤ length out.old }
    ensures run { result.run ≡ Feeding.fed run input.now }
    ensures printed { Steps.Put out.old 0 (Feeding.printed run input.now) result.written out.new }
{
    let mut scan = run.scan;
    let mut course = run.course;
    let mut i = 0usize;
    let mut to = 0usize;
    // No `for`: the place jumps from row to row.
    while i < input.len() {
        if !export_rows::is_open(course) {
            return Fed {
                run: Run { scan, course },
                written: to,
            };
        }
        let reached = csv_rows::read(scan, input, i);
        let row = reached.row;
        scan = reached.scan;
        i = reached.next;
        if export_rows::is_passed_over(course.watch.drawer, row) {
            course.row = watched_rows::next_number(course.row);
            continue;
        }
        let taken = export_rows::take(course, row);
        let line = taken.line;
        to = write_line(out, to, course.row, line);
        course = taken.course;
    }
    Fed {
        run: Run { scan, course },
        written: to,
    }
}

// The counts, unless the run is over.
fn total(course: Course, out: &mut [u8], at: usize) -> usize
    requires { at + 84 ≤ length out.old }
    ensures { Steps.Put out.old at (Feeding.total_said course) result out.new }
{
    if export_rows::is_open(course) {
        return score_rows::write_counts(out, at, course.watch.counts);
    }
    at
}

// The end of the input: a last row without a line end is judged, then the counts.
fn close(run: Run, out: &mut [u8]) -> Fed
    requires { 168 ≤ length out.old }
    ensures run { result.run ≡ Feeding.closed run }
    ensures printed { Steps.Put out.old 0 (Feeding.closing run) result.written out.new }
{
    let course = run.course;
    let last = csv_rows::finish(run.scan);
    let row = last.row;
    let taken = export_rows::take(course, row);
    let line = taken.line;
    let end = write_line(out, 0, course.row, line);
    let after = taken.course;
    let written = total(after, out, end);
    let scan = last.scan;
    Fed {
        run: Run {
            scan,
            course: export_rows::total(after),
        },
        written,
    }
}

// A run that has read nothing. `score_rows::header` is what it prints first.
#[tactic(auto, unfolding(crate::specs::Feeding::begin))]
pub fn begin() -> Run
    ensures { result ≡ Feeding.begin }
{
    Run {
        scan: csv_rows::begin(),
        course: export_rows::begin(),
    }
}

// Reads the first n bytes of a part of the input, or all where n is more. The arrays' types say that what is printed has room; slices would need a `requires`.
pub fn feed(run: Run, input: &[u8; PART], n: usize, out: &mut [u8; ROOM]) -> Fed
    ensures { Feeding.Prints (Feeding.fed run (take n input.now)) (Feeding.printed run (take n input.now)) out.old result out.new }
{
    let bytes: &[u8] = input;
    if n < PART {
        return read(run, &bytes[..n], out);
    }
    read(run, bytes, out)
}

// The end of the input.
pub fn finish(run: Run, out: &mut [u8; ROOM]) -> Fed
    ensures { Feeding.Prints (Feeding.closed run) (Feeding.closing run) out.old result out.new }
{
    close(run, out)
}

// However the input is cut, the header and what `feed` and `finish` print are together the output of the whole input, and the run ends as `ending` says of it.
// Nothing calls it: the check asks for its proof.
fn whole_run()
    ensures whole { Feeding.Whole }
    ensures ending { Feeding.WholeEnding }
{}
