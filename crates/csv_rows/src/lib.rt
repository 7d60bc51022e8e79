// The rows of a cabinet's export, CSV after RFC 4180, read in parts of any size. Nothing of the input is kept: a scan has a fixed size.
#![tactic(auto)]

ghost use Rattle.std.specs.Prelude.{◌≡◌, drop};
ghost use Rattle.csv_rows.specs.Scanning as Scanning;
ghost use Rattle.csv_rows.specs.Sizes as Sizes;
ghost use Rattle.csv_rows.specs.Steps as Steps;

use csv_fields::{Content, Digits, Place, Turn};
use types::Refusal;

// A field under way.
#[derive(Clone, Copy)]
pub struct Token {
    pub content: Content,
    pub place: Place,
}

// A scan between two bytes, in the field of that number from 0 on; 3 stands for all from the fourth on. `drawer` is the row's first field, `good` says that its earlier
// fields are what they should be, `header` that it is the header's row. The scan is `over` once a row was faulty.
#[derive(Clone, Copy)]
pub struct Scan {
    pub token: Token,
    pub field: u32,
    pub drawer: u32,
    pub good: bool,
    pub header: bool,
    pub over: bool,
}

// A sound row below the header.
#[derive(Clone, Copy)]
pub struct Entry {
    pub drawer: u32,
    pub score: f32,
}

// What a row is: none, the header, a sound row below it, a faulty one.
#[derive(Clone, Copy)]
pub enum Row {
    Nothing,
    Header,
    Sound(Entry),
    Faulty(Refusal),
}

// The scan behind a byte, and the row that the byte ended.
#[derive(Clone, Copy)]
pub struct Stepped {
    pub scan: Scan,
    pub row: Row,
}

// The scan where reading stopped, the row that ended there, and the place behind it.
#[derive(Clone, Copy)]
pub struct Reached {
    pub scan: Scan,
    pub row: Row,
    pub next: usize,
}

#[tactic(auto, unfolding(crate::specs::Scanning::start))]
fn start() -> Token
    ensures { result ≡ Scanning.start }
{
    Token {
        content: csv_fields::fresh(),
        place: Place::Start,
    }
}

#[tactic(auto, unfolding(crate::specs::Scanning::begin_row))]
fn begin_row(header: bool) -> Scan
    ensures { result ≡ Scanning.begin_row header }
{
    Scan {
        token: start(),
        field: 0,
        drawer: 0,
        good: true,
        header,
        over: false,
    }
}

// The start of an input.
#[tactic(auto, unfolding(crate::specs::Scanning::begin))]
pub fn begin() -> Scan
    ensures { result ≡ Scanning.begin }
{
    begin_row(true)
}

// A faulty row ends the scan.
#[tactic(auto, unfolding(crate::specs::Scanning::refused))]
fn refused(s: Scan, why: Refusal) -> Stepped
    ensures { result ≡ Scanning.refused s why }
{
    let mut scan = s;
    scan.over = true;
    Stepped {
        scan,
        row: Row::Faulty(why),
    }
}

// The field of that content has ended, and another follows.
#[tactic(auto, unfolding(crate::specs::Scanning::next_field, crate::specs::Scanning::field_after))]
fn next_field(s: Scan, c: Content) -> Scan
    ensures { result ≡ Scanning.next_field s c }
{
    let mut out = s;
    out.good = s.good & csv_fields::good(s.header, s.field, c);
    out.token = start();
    if s.field == 0 {
        out.field = 1;
        out.drawer = c.number;
        return out;
    }
    if s.field < 3 {
        out.field = s.field + 1;
        return out;
    }
    out.field = 3;
    out
}

// What the row is that ends with the field of that content.
fn verdict(header: bool, field: u32, good: bool, drawer: u32, c: Content) -> Row
    ensures { result ≡ Scanning.verdict header field good drawer c }
{
    if field == 2 {
        if good & csv_fields::good(header, field, c) {
            if header {
                return Row::Header;
            }
            let score = csv_fields::score(c);
            return Row::Sound(Entry { drawer, score });
        }
        return Row::Faulty(Refusal::of_faulty_row(header));
    }
    Row::Faulty(Refusal::of_faulty_row(true))
}

// The scan behind a row. `taken` and `finish` both call it, so it is small and apart from `verdict`: then it is inlined, and the scan stays in registers.
#[tactic(auto, unfolding(crate::specs::Scanning::after_row))]
fn after_row(s: Scan, row: Row) -> Stepped
    ensures { result ≡ Scanning.after_row s row }
{
    let next = begin_row(false);
    match row {
        Row::Nothing => Stepped { scan: next, row },
        Row::Header => Stepped { scan: next, row },
        Row::Sound(_) => Stepped { scan: next, row },
        Row::Faulty(why) => refused(s, why),
    }
}

// The byte b is taken by the field of that content.
#[tactic(auto, unfolding(crate::specs::Scanning::taken, crate::specs::Scanning::row_ended))]
fn taken(s: Scan, turn: Turn, c: Content, b: u8) -> Stepped
    ensures { result ≡ Scanning.taken s turn c b }
{
    let mut scan = s;
    match turn {
        Turn::Reads(place) => {
            let token = Token {
                content: csv_fields::push(s.header, s.field, c, b),
                place,
            };
            scan.token = token;
            Stepped {
                scan,
                row: Row::Nothing,
            }
        }
        Turn::Waits(place) => {
            let token = Token { content: c, place };
            scan.token = token;
            Stepped {
                scan,
                row: Row::Nothing,
            }
        }
        Turn::FieldEnds => Stepped {
            scan: next_field(s, c),
            row: Row::Nothing,
        },
        Turn::RowEnds => after_row(s, verdict(s.header, s.field, s.good, s.drawer, c)),
        Turn::Breaks => refused(s, Refusal::Row),
    }
}

// One byte of the input.
#[tactic(auto, unfolding(crate::specs::Scanning::stepped))]
fn step(scan: Scan, b: u8) -> Stepped
    ensures { result ≡ Scanning.stepped scan b }
{
    if scan.over {
        return Stepped {
            scan,
            row: Row::Nothing,
        };
    }
    let t = scan.token;
    let place = t.place;
    let c = t.content;
    taken(
        scan,
        csv_fields::byte_turn(place, b),
        csv_fields::held(csv_fields::spoils(place, b), c),
        b,
    )
}

#[tactic(auto, unfolding(crate::specs::Scanning::is_nothing))]
fn is_nothing(row: Row) -> bool
    ensures { result ≡ Scanning.is_nothing row }
{
    match row {
        Row::Nothing => true,
        Row::Header => false,
        Row::Sound(_) => false,
        Row::Faulty(_) => false,
    }
}

// Whether the scan is in a drawer or a seen number without quotes, and not behind a carriage return.
#[tactic(auto, unfolding(crate::specs::Steps::in_number))]
fn in_number(s: Scan) -> bool
    ensures { result ≡ Steps.in_number s }
{
    let t = s.token;
    let place = t.place;
    (!s.over & !s.header) & ((s.field < 2) & csv_fields::is_plain(place))
}

// The digits of such a number that stand at the place i, in one go; elsewhere none.
#[tactic(auto, unfolding(crate::specs::Steps::digits_at))]
fn digits_at(s: Scan, input: &[u8], i: usize) -> Digits
    ensures { result ≡ Steps.digits_at s i (drop i input.now) }
{
    if in_number(s) {
        let t = s.token;
        let c = t.content;
        return csv_fields::take_digits(c.number, input, i);
    }
    Digits { number: 0, next: i }
}

#[tactic(auto, unfolding(crate::specs::Steps::with_number))]
fn with_number(s: Scan, n: u32) -> Scan
    ensures { result ≡ Steps.with_number s n }
{
    let t = s.token;
    let c = t.content;
    let content = Content {
        number: n,
        whole: c.whole,
        places: c.places,
        spoilt: c.spoilt,
        point: c.point,
    };
    let token = Token {
        place: Place::Plain,
        content,
    };
    let mut out = s;
    out.token = token;
    out
}

// Reads on from that place until a row ends or the input does.
pub fn read(scan: Scan, input: &[u8], from: usize) -> Reached
    ensures { result ≡ Scanning.read_on scan from (drop from input.now) }
{
    let mut s = scan;
    let mut i = from;
    // No `for`: the place jumps over digits.
    while i < input.len() {
        let digits = digits_at(s, input, i);
        if i < digits.next {
            s = with_number(s, digits.number);
            i = digits.next;
            continue;
        }
        let stepped = step(s, input[i]);
        let row = stepped.row;
        s = stepped.scan;
        i += 1;
        if is_nothing(row) {
            continue;
        }
        return Reached {
            scan: s,
            row,
            next: i,
        };
    }
    Reached {
        scan: s,
        row: Row::Nothing,
        next: i,
    }
}

// The end of the input. What it does to a content is what a comma does.
#[tactic(auto, unfolding(crate::specs::Scanning::finished, crate::specs::Scanning::closed_by, crate::specs::Scanning::row_ended))]
pub fn finish(scan: Scan) -> Stepped
    ensures { result ≡ Scanning.finished scan }
{
    let still = Stepped {
        scan,
        row: Row::Nothing,
    };
    if scan.over {
        return still;
    }
    let t = scan.token;
    let place = t.place;
    let c = t.content;
    let turn = csv_fields::end_turn(scan.header, scan.field, place);
    match turn {
        Turn::Reads(_) => still,
        Turn::Waits(_) => still,
        Turn::FieldEnds => still,
        Turn::RowEnds => {
            let last = csv_fields::held(csv_fields::spoils(place, b','), c);
            after_row(
                scan,
                verdict(scan.header, scan.field, scan.good, scan.drawer, last),
            )
        }
        Turn::Breaks => refused(scan, Refusal::Row),
    }
}

// However the input is cut, a scan that is fed it reads its rows. Nothing calls it: the check asks for its proof.
fn whole_input()
    ensures { Scanning.Whole }
{}

// Every score that is read is of the sizes of the ledger comparison. Nothing calls it, either.
fn sized_scores()
    ensures { Sizes.SizedScores }
{}
