// Runs the libraries of both watches on stored cases. Standard input names them, for each a line with the file of its input and one with the file of its
// output. The input's name tells what is read: `.in` scores, `.csv` an export; `.lines` and `.skips` scores behind 65,536 lines, judged or skipped, `.rows` and
// `.zeros` an export behind 65,536 rows of its drawer, judged or skipped, `.million` one behind a million rows of another drawer. Every case is run once for
// each place at which its input can be cut in two.
#![tactic(auto)]

ghost use Rattle.std.specs.Io.{ReadsAtMost};
ghost use Rattle.std.specs.Prelude.{◌≤◌, length};

use score_rows::{PART, ROOM};
use std::io::Read;
use std::rt::Files;
use std::{fs, io, str};

// As many bytes of the names as are looked at. They and the files are read into arrays, so that nothing here can run out of memory.
const NAMES: usize = 65536;

// A run of either watch.
#[derive(Clone, Copy)]
enum Run {
    Scores(score_lines::Run),
    Export(export_bytes::Run),
}

// A run that has been fed, and what it is still to print; none where it has printed something else.
#[derive(Clone, Copy)]
struct Going<'a> {
    run: Run,
    due: Option<&'a [u8]>,
}

// What is fed before a case's input: so much of an export's head, then a block over and over, in parts of that length. Where it is not looked at, neither is the
// header that a run prints.
#[derive(Clone, Copy)]
struct Lead {
    is_export: bool,
    is_seen: bool,
    head: usize,
    block: [u8; 36],
    length: usize,
    parts: usize,
    ghost head_fits: { head ≤ 8192 },
    ghost part_fits: { length ≤ 8192 },
}

#[derive(Clone, Copy)]
struct Tally {
    cases: u64,
    differ: u64,
}

// 65,536 lines of scores, 256 a part.
fn lines(block: [u8; 36]) -> Lead {
    Lead {
        is_export: false,
        is_seen: false,
        head: 0,
        block,
        length: 2304,
        parts: 256,
    }
}

// 65,536 rows of an export, 512 a part.
fn rows(block: [u8; 36]) -> Lead {
    Lead {
        is_export: true,
        is_seen: false,
        head: 18,
        block,
        length: 3072,
        parts: 128,
    }
}

// By the letter behind the dot of the input's name; `.in` and `.csv` have nothing before them.
fn lead_of(kind: Option<u8>) -> Lead {
    match kind {
        Some(b'l') => lines(*b"3f800000\n3f800000\n3f800000\n3f800000\n"),
        Some(b's') => lines(*b"00000000\n00000000\n00000000\n00000000\n"),
        Some(b'r') => rows(*b"1,1,1\n1,1,1\n1,1,1\n1,1,1\n1,1,1\n1,1,1\n"),
        Some(b'z') => rows(*b"1,1,0\n1,1,0\n1,1,0\n1,1,0\n1,1,0\n1,1,0\n"),
        Some(b'm') => Lead {
            is_export: true,
            is_seen: true,
            head: 24,
            block: *b"2,1,1\n2,1,1\n2,1,1\n2,1,1\n2,1,1\n2,1,1\n",
            length: 3750,
            parts: 1600,
        },
        _ => Lead {
            is_export: kind == Some(b'c'),
            is_seen: true,
            head: 0,
            block: [0u8; 36],
            length: 0,
            parts: 0,
        },
    }
}

// The bytes that remain once those printed are taken off the front; none where it begins otherwise.
fn held<'a>(due: Option<&'a [u8]>, printed: &[u8]) -> Option<&'a [u8]> {
    due?.strip_prefix(printed)
}

// What is due behind the header that every output begins with.
fn begun(is_export: bool, expected: &[u8]) -> Going<'_> {
    let due = held(Some(expected), &score_rows::header());
    let run = if is_export {
        Run::Export(export_bytes::begin())
    } else {
        Run::Scores(score_lines::begin())
    };
    Going { run, due }
}

// `out` is room for what a part prints, one for all, since it takes longer to clear than a part to read.
fn fed<'a>(before: Going<'a>, input: &[u8], out: &mut [u8; ROOM]) -> Going<'a>
    requires { length input.now ≤ 8192 }
{
    let n = input.len();
    let mut bytes = [0u8; PART];
    bytes[..n].copy_from_slice(input);
    let run = before.run;
    match run {
        Run::Scores(scores) => {
            let fed = score_lines::feed(scores, &bytes, n, out);
            let due = held(before.due, &out[..fed.written]);
            Going {
                run: Run::Scores(fed.run),
                due,
            }
        }
        Run::Export(export) => {
            let fed = export_bytes::feed(export, &bytes, n, out);
            let due = held(before.due, &out[..fed.written]);
            Going {
                run: Run::Export(fed.run),
                due,
            }
        }
    }
}

// Whether the run ends with all that is due.
fn ends(before: Going<'_>, out: &mut [u8; ROOM]) -> bool {
    let run = before.run;
    let rest = match run {
        Run::Scores(scores) => {
            let fed = score_lines::finish(scores, out);
            held(before.due, &out[..fed.written])
        }
        Run::Export(export) => {
            let fed = export_bytes::finish(export, out);
            held(before.due, &out[..fed.written])
        }
    };
    matches!(rest, Some([]))
}

// Whether the input prints what is due, wherever it is cut.
fn prints(start: Going<'_>, input: &[u8], out: &mut [u8; ROOM]) -> bool
    requires { length input.now ≤ 8192 }
{
    for cut in 0..=input.len() {
        let first = fed(start, &input[..cut], out);
        let second = fed(first, &input[cut..], out);
        if !ends(second, out) {
            return false;
        }
    }
    true
}

// A block over and over.
fn filled(block: [u8; 36]) -> [u8; PART] {
    let mut bytes = [0u8; PART];
    for (i, b) in bytes.iter_mut().enumerate() {
        *b = block[i % 36];
    }
    bytes
}

// A run that has been fed what stands before a case's input.
fn led<'a>(lead: Lead, expected: &'a [u8], out: &mut [u8; ROOM]) -> Going<'a> {
    let start = begun(lead.is_export, expected);
    let head = filled(*b"drawer,seen,score\n1,1,1\n1,1,1\n1,1,1\n");
    let mut going = fed(start, &head[..lead.head], out);
    let part = filled(lead.block);
    for _ in 0..lead.parts {
        going = fed(going, &part[..lead.length], out);
    }
    if !lead.is_seen {
        going.due = Some(expected);
    }
    going
}

// The letter behind the dot of a name.
fn kind_of(name: &[u8]) -> Option<u8> {
    let dot = name.iter().position(|b| *b == b'.')?;
    name.get(dot + 1).copied()
}

// Reads until `out` is full or the input ends, and tells how many bytes there were. No `for`: it counts by what a read gave, and `read_to_end` needs a `Vec`.
fn read_full(input: &mut impl Read, out: &mut [u8]) -> io::Result<usize>
    ensures { ReadsAtMost result out.new }
{
    let mut done = 0usize;
    while done < out.len() {
        let n = input.read(&mut out[done..])?;
        if n == 0 {
            break;
        }
        done += n;
    }
    Ok(done)
}

// As much of a file as fills a part, read into `room`; none where it cannot be read.
fn read_named<'a>(rt: &impl Files, name: &[u8], room: &'a mut [u8; PART]) -> Option<&'a [u8]> {
    let mut file = fs::open(rt, str::from_utf8(name).ok()?).ok()?;
    let n = read_full(&mut file, room).ok()?;
    room.get(..n)
}

// Whether the files of a case agree. An input that fills a part counts as one that cannot be read, and no case's does; of an output no more is looked at.
fn agrees(rt: &impl Files, input: &[u8], output: &[u8]) -> bool {
    let mut given = [0u8; PART];
    let mut expected = [0u8; PART];
    let (Some(given), Some(expected)) = (
        read_named(rt, input, &mut given),
        read_named(rt, output, &mut expected),
    ) else {
        return false;
    };
    let mut out = [0u8; ROOM];
    let start = led(lead_of(kind_of(input)), expected, &mut out);
    (given.len() < PART) && prints(start, given, &mut out)
}

// The names are lines, two for each case; the last may lack its line end, and an output that is not named has no name.
fn stored(rt: &(impl Files + Print), names: &[u8]) -> io::Result<Tally> {
    let mut tally = Tally {
        cases: 0,
        differ: 0,
    };
    if names.is_empty() {
        return Ok(tally);
    }
    let ended = names.strip_suffix(b"\n").unwrap_or(names);
    let mut lines = ended.split(|b| *b == b'\n');
    for _ in 0..names.len() {
        let Some(input) = lines.next() else {
            break;
        };
        let output = lines.next().unwrap_or(b"");
        if !agrees(rt, input, output) {
            rt.write_all(input)?;
            rt.write_all(b" differs\n")?;
            tally.differ = tally.differ.saturating_add(1);
        }
        tally.cases = tally.cases.saturating_add(1);
    }
    Ok(tally)
}

fn main(rt: HostRuntime) -> io::Result<()> {
    let mut names = [0u8; NAMES];
    let n = read_full(&mut rt.reader(), &mut names)?;
    let tally = stored(&rt, &names[..n])?;
    println!(rt; "{} cases, {} differ", tally.cases, tally.differ)
}
