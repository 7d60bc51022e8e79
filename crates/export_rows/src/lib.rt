// The export watch row by row: what a row of a cabinet's export does to the run, and what it prints. Bytes are read below, in `csv_rows`, and written above.
#![tactic(auto)]

ghost use Rattle.std.specs.Prelude.{◌≡◌, ◌<◌};
ghost use Rattle.score_kinds.specs.Counting as Counting;
ghost use Rattle.export_rows.specs.Taking as Taking;

use basicthresholder::BasicThresholder;
use csv_rows::{Entry, Row};
use score_kinds::{Counts, Kind};
use types::Refusal;

// What a run knows of the drawer that it watches: its number, or 0 before the first row; its statistics; how many of its rows were of each kind.
#[derive(Clone, Copy)]
pub struct Watch {
    pub thresholder: BasicThresholder,
    pub drawer: u32,
    pub counts: Counts,
}

// How a run stands: it goes on; a row was faulty; the drawer has too many rows; the input ended and the counts were given.
#[derive(Clone, Copy)]
pub enum Ending {
    Open,
    Refused(Refusal),
    Full,
    Counted,
}

// A run between two rows: `row` is the number of the row to come, the header's being 1.
#[derive(Clone, Copy)]
pub struct Course {
    pub watch: Watch,
    pub row: u64,
    pub ending: Ending,
}

// What a row prints, its number apart.
#[derive(Clone, Copy)]
pub enum Line {
    Nothing,
    Shown(Kind),
    Full,
    Faulty(Refusal),
}

// The run after a row, and what the row prints.
#[derive(Clone, Copy)]
pub struct Taken {
    pub course: Course,
    pub line: Line,
}

// A run that has read nothing.
#[tactic(auto, unfolding(crate::specs::Taking::begin, crate::specs::Taking::unwatched))]
pub fn begin() -> Course
    ensures { result ≡ Taking.begin }
{
    Course {
        watch: Watch {
            thresholder: score_kinds::settings(),
            drawer: 0,
            counts: score_kinds::no_lines(),
        },
        row: watched_rows::first_number(),
        ending: Ending::Open,
    }
}

// Whether the run goes on.
#[tactic(auto, unfolding(crate::specs::Taking::is_open))]
pub fn is_open(course: Course) -> bool
    ensures { result ≡ Taking.is_open course.ending }
{
    let ending = course.ending;
    match ending {
        Ending::Open => true,
        Ending::Refused(_) => false,
        Ending::Full => false,
        Ending::Counted => false,
    }
}

// The run that has ended so.
#[tactic(auto, unfolding(crate::specs::Taking::ended))]
fn ended(course: Course, ending: Ending) -> Course
    ensures { result ≡ Taking.ended course ending }
{
    let watch = course.watch;
    Course {
        watch,
        row: course.row,
        ending,
    }
}

// The run after a row that does not end it.
#[tactic(auto, unfolding(crate::specs::Taking::passed))]
fn passed(course: Course, watch: Watch) -> Course
    ensures { result ≡ Taking.passed course watch }
{
    Course {
        watch,
        row: watched_rows::next_number(course.row),
        ending: Ending::Open,
    }
}

// Whether a row is one that a run watching that drawer passes over: sound, and another drawer's.
#[tactic(auto, unfolding(crate::specs::Taking::is_passed_over))]
pub fn is_passed_over(drawer: u32, row: Row) -> bool
    ensures { result ≡ Taking.is_passed_over drawer row }
{
    match row {
        Row::Nothing => false,
        Row::Header => false,
        Row::Sound(entry) => !watched_rows::is_watched(drawer, entry.drawer),
        Row::Faulty(_) => false,
    }
}

// The watch after a row of its drawer, of that kind. The counts are made first: behind them the statistics need no copy.
fn with_row(watch: Watch, entry: Entry, kind: Kind) -> Watch
    requires { Counting.lines watch.counts < 65536 }
    ensures { result ≡ Taking.with_row watch entry kind }
{
    let counts = score_kinds::with_line(watch.counts, kind);
    Watch {
        thresholder: score_kinds::counted(watch.thresholder, entry.score),
        drawer: entry.drawer,
        counts,
    }
}

// A sound row: judged or skipped where it is the watched drawer's, else passed over.
fn sound(course: Course, entry: Entry) -> Taken
    ensures { result ≡ Taking.sound course entry }
{
    let watch = course.watch;
    if watched_rows::is_watched(watch.drawer, entry.drawer) {
        if watched_rows::goes_on(score_kinds::lines(watch.counts)) {
            let kind = score_kinds::kind_of(watch.thresholder, entry.score);
            return Taken {
                course: passed(course, with_row(watch, entry, kind)),
                line: Line::Shown(kind),
            };
        }
        return Taken {
            course: ended(course, Ending::Full),
            line: Line::Full,
        };
    }
    Taken {
        course: passed(course, watch),
        line: Line::Nothing,
    }
}

// A row that an open run meets.
fn met(course: Course, row: Row) -> Taken
    ensures { result ≡ Taking.met course row }
{
    match row {
        Row::Nothing => Taken {
            course,
            line: Line::Nothing,
        },
        Row::Header => {
            let watch = course.watch;
            Taken {
                course: passed(course, watch),
                line: Line::Nothing,
            }
        }
        Row::Sound(entry) => sound(course, entry),
        Row::Faulty(why) => Taken {
            course: ended(course, Ending::Refused(why)),
            line: Line::Faulty(why),
        },
    }
}

// A row of the input; a run that has ended stays as it is.
#[tactic(auto, unfolding(crate::specs::Taking::taken))]
pub fn take(course: Course, row: Row) -> Taken
    ensures { result ≡ Taking.taken course row }
{
    if is_open(course) {
        return met(course, row);
    }
    Taken {
        course,
        line: Line::Nothing,
    }
}

// The run whose input has ended, its counts given.
#[tactic(auto, unfolding(crate::specs::Taking::totalled))]
pub fn total(course: Course) -> Course
    ensures { result ≡ Taking.totalled course }
{
    if is_open(course) {
        return ended(course, Ending::Counted);
    }
    course
}
