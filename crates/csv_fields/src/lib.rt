// A field of a cabinet's export, read byte by byte: its quotes, and its content, which is a word of the header, a whole number or a score. Nothing is kept of it but what
// it says so far.
#![tactic(auto)]

ghost use Rattle.std.specs.Prelude.{◌≡◌, ◌≤◌, ◌<◌, true, eqb, length, get_or, drop};
ghost use Rattle.csv_fields.specs.Contents as Contents;
ghost use Rattle.csv_fields.specs.Pushing as Pushing;
ghost use Rattle.csv_fields.specs.Quoting as Quoting;
ghost use Rattle.csv_fields.specs.Sizes as Sizes;

// The largest drawer and the largest seen number.
const MOST_DRAWER: u32 = 65_535;

const MOST_SEEN: u32 = 16_777_216;

// Numbers stop growing here: above every limit, and a score's nine digits write no more.
const CAP: u64 = 999_999_999;

// Digits of a score before the point and behind it, at most.
const MOST_WHOLE: u32 = 3;

const MOST_PLACES: u32 = 6;

// Where in a field a scan is: nothing read; in a field without quotes; there behind a carriage return; inside quotes; behind a quote inside quotes, which ends the
// field unless another follows; behind that quote and a carriage return.
#[derive(Clone, Copy)]
pub enum Place {
    Start,
    Plain,
    Return,
    Quoted,
    Closed,
    Ending,
}

// What a byte does to a field: it is one of the content, and the field goes on at that place; it is none, and the field goes on; it ends the field, and another
// follows; it ends the row; it breaks the field's quotes, or ends an input that has no header.
#[derive(Clone, Copy)]
pub enum Turn {
    Reads(Place),
    Waits(Place),
    FieldEnds,
    RowEnds,
    Breaks,
}

// What has been read of a content. `number` is what its digits write, or the cap. `whole` counts a word's letters, or a score's digits before the point; `places`
// counts the digits behind it. It is `spoilt` once it can be neither the word nor the number that its field asks for. (The flags stand behind the numbers: the
// compiler then keeps each in a register, which makes a scan a third faster.)
#[derive(Clone, Copy)]
pub struct Content {
    pub number: u32,
    pub whole: u32,
    pub places: u32,
    pub point: bool,
    pub spoilt: bool,
}

// A number with some digits more, and the place behind them.
#[derive(Clone, Copy)]
pub struct Digits {
    pub number: u32,
    pub next: usize,
}

// Nothing read.
#[tactic(auto, unfolding(crate::specs::Pushing::fresh))]
pub fn fresh() -> Content
    ensures { result ≡ Pushing.fresh }
{
    Content {
        number: 0,
        whole: 0,
        places: 0,
        point: false,
        spoilt: false,
    }
}

#[tactic(auto, unfolding(crate::specs::Pushing::spoil))]
fn spoil(c: Content) -> Content
    ensures { result ≡ Pushing.spoil c }
{
    let mut out = c;
    out.spoilt = true;
    out
}

// Whether the word has that byte at that place.
fn byte_is(word: &[u8], i: u32, b: u8) -> bool
    ensures is_equal { result ≡ eqb (get_or word.now i 256) b }
    ensures within { (result ≡ true → i < length word.now) }
{
    let at = i as usize;
    if at < word.len() {
        return word[at] == b;
    }
    false
}

#[tactic(auto, unfolding(crate::specs::Pushing::letter, crate::specs::Contents::word))]
fn letter_is(field: u32, i: u32, b: u8) -> bool
    ensures is_equal { result ≡ eqb (Pushing.letter field i) b }
    ensures within { (result ≡ true → i < 6) }
{
    if field == 0 {
        return byte_is(b"drawer", i, b);
    }
    if field == 1 {
        return byte_is(b"seen", i, b);
    }
    byte_is(b"score", i, b)
}

#[tactic(auto, unfolding(crate::specs::Pushing::push_letter))]
fn push_letter(field: u32, c: Content, b: u8) -> Content
    ensures { result ≡ Pushing.push_letter field c b }
{
    if letter_is(field, c.whole, b) {
        let mut out = c;
        out.whole = c.whole + 1;
        return out;
    }
    spoil(c)
}

#[tactic(auto, unfolding(crate::specs::Contents::is_digit))]
fn is_digit(b: u8) -> bool
    ensures { result ≡ Contents.is_digit b }
{
    (b'0' <= b) & (b <= b'9')
}

// A number with one more digit, or the cap.
#[tactic(auto, unfolding(crate::specs::Pushing::grown))]
fn grown(n: u32, b: u8) -> u32
    requires { 48 ≤ b }
    ensures { result ≡ Pushing.grown n b }
{
    let v = (n as u64) * 10 + (b - b'0') as u64;
    if v < CAP {
        return v as u32;
    }
    CAP as u32
}

// Digits that follow each other, taken in one go: the number with them, and the place behind them.
pub fn take_digits(n: u32, input: &[u8], from: usize) -> Digits
    ensures { result ≡ Pushing.digits_from n from (drop from input.now) }
{
    let mut number = n;
    for i in from..input.len() {
        let b = input[i];
        if !is_digit(b) {
            return Digits { number, next: i };
        }
        number = grown(number, b);
    }
    Digits {
        number,
        next: from.max(input.len()),
    }
}

#[tactic(auto, unfolding(crate::specs::Pushing::push_digit))]
fn push_digit(c: Content, b: u8) -> Content
    ensures { result ≡ Pushing.push_digit c b }
{
    if is_digit(b) {
        let mut out = c;
        out.number = grown(c.number, b);
        return out;
    }
    spoil(c)
}

fn push_score(c: Content, b: u8) -> Content
    ensures { result ≡ Pushing.push_score c b }
{
    let mut out = c;
    if is_digit(b) {
        if c.point {
            if c.places < MOST_PLACES {
                out.number = grown(c.number, b);
                out.places = c.places + 1;
                return out;
            }
            return spoil(c);
        }
        if c.whole < MOST_WHOLE {
            out.number = grown(c.number, b);
            out.whole = c.whole + 1;
            return out;
        }
        return spoil(c);
    }
    if (b == b'.') & !c.point {
        out.point = true;
        return out;
    }
    spoil(c)
}

// A byte of the content of the field of that number, in the header or below it.
#[tactic(auto, unfolding(crate::specs::Pushing::push))]
pub fn push(header: bool, field: u32, c: Content, b: u8) -> Content
    ensures { result ≡ Pushing.push header field c b }
{
    if header {
        return push_letter(field, c, b);
    }
    if field == 2 {
        return push_score(c, b);
    }
    push_digit(c, b)
}

#[tactic(auto, unfolding(crate::specs::Pushing::word_length))]
fn word_length(field: u32) -> u32
    ensures { result ≡ Pushing.word_length field }
{
    if field == 0 {
        return 6;
    }
    if field == 1 {
        return 4;
    }
    5
}

// Whether the content is what its field asks for.
#[tactic(auto, unfolding(crate::specs::Pushing::good, crate::specs::Pushing::good_word, crate::specs::Pushing::good_score, crate::specs::Pushing::good_number, crate::specs::Pushing::limit))]
pub fn good(header: bool, field: u32, c: Content) -> bool
    ensures { result ≡ Pushing.good header field c }
{
    if header {
        return !c.spoilt & (c.whole == word_length(field));
    }
    if field == 2 {
        return !c.spoilt & ((1 <= c.whole) & (!c.point | (1 <= c.places)));
    }
    if field == 0 {
        return !c.spoilt & ((1 <= c.number) & (c.number <= MOST_DRAWER));
    }
    !c.spoilt & ((1 <= c.number) & (c.number <= MOST_SEEN))
}

// The score that the content writes.
#[tactic(auto, unfolding(crate::specs::Pushing::score))]
pub fn score(c: Content) -> f32
    ensures { result ≡ Pushing.score c }
{
    decimal::to_f32(c.number, c.places)
}

// A byte in a field without quotes.
fn plain_turn(b: u8) -> Turn
    ensures { result ≡ Quoting.plain_turn b }
{
    if b == b'"' {
        return Turn::Breaks;
    }
    if b == b',' {
        return Turn::FieldEnds;
    }
    if b == b'\n' {
        return Turn::RowEnds;
    }
    if b == b'\r' {
        return Turn::Waits(Place::Return);
    }
    Turn::Reads(Place::Plain)
}

// A byte behind a quote inside quotes.
#[tactic(auto, unfolding(crate::specs::Quoting::closed_turn))]
fn closed_turn(b: u8) -> Turn
    ensures { result ≡ Quoting.closed_turn b }
{
    if b == b'"' {
        return Turn::Waits(Place::Quoted);
    }
    if b == b',' {
        return Turn::FieldEnds;
    }
    if b == b'\n' {
        return Turn::RowEnds;
    }
    if b == b'\r' {
        return Turn::Waits(Place::Ending);
    }
    Turn::Breaks
}

// A byte at each place of a field.
#[tactic(auto, unfolding(crate::specs::Quoting::byte_turn))]
pub fn byte_turn(place: Place, b: u8) -> Turn
    ensures { result ≡ Quoting.byte_turn place b }
{
    match place {
        Place::Start => {
            if b == b'"' {
                return Turn::Waits(Place::Quoted);
            }
            plain_turn(b)
        }
        Place::Plain => plain_turn(b),
        Place::Return => plain_turn(b),
        Place::Quoted => {
            if b == b'"' {
                return Turn::Waits(Place::Closed);
            }
            Turn::Reads(Place::Quoted)
        }
        Place::Closed => closed_turn(b),
        Place::Ending => {
            if b == b'\n' {
                return Turn::RowEnds;
            }
            Turn::Breaks
        }
    }
}

// The end of the input, in the field of that number. Where no row is under way all is well, but for the header.
#[tactic(auto, unfolding(crate::specs::Quoting::end_turn))]
pub fn end_turn(header: bool, field: u32, place: Place) -> Turn
    ensures { result ≡ Quoting.end_turn header field place }
{
    match place {
        Place::Start => {
            if field == 0 {
                if header {
                    Turn::Breaks
                } else {
                    Turn::Waits(Place::Start)
                }
            } else {
                Turn::RowEnds
            }
        }
        Place::Plain => Turn::RowEnds,
        Place::Return => Turn::RowEnds,
        Place::Quoted => Turn::Breaks,
        Place::Closed => Turn::RowEnds,
        Place::Ending => Turn::Breaks,
    }
}

// Whether a byte spoils the content of a field: a carriage return before it was one of the content, unless it is a line feed; a second quote is a quote of the content.
#[tactic(auto, unfolding(crate::specs::Quoting::spoils))]
pub fn spoils(place: Place, b: u8) -> bool
    ensures { result ≡ Quoting.spoils place b }
{
    match place {
        Place::Start => false,
        Place::Plain => false,
        Place::Return => b != b'\n',
        Place::Quoted => false,
        Place::Closed => b == b'"',
        Place::Ending => false,
    }
}

// The content, spoilt where the flag says so.
#[tactic(auto, unfolding(crate::specs::Quoting::held))]
pub fn held(spoilt: bool, c: Content) -> Content
    ensures { result ≡ Quoting.held spoilt c }
{
    let mut out = c;
    out.spoilt = spoilt | c.spoilt;
    out
}

// Whether the next byte follows a field without quotes as it stands: no quote has been read, and no carriage return just before.
#[tactic(auto, unfolding(crate::specs::Quoting::is_plain))]
pub fn is_plain(place: Place) -> bool
    ensures { result ≡ Quoting.is_plain place }
{
    match place {
        Place::Start => true,
        Place::Plain => true,
        Place::Return => false,
        Place::Quoted => false,
        Place::Closed => false,
        Place::Ending => false,
    }
}

// Every score that is read is the nearest `f32`, a tie going to the even one. Nothing calls it: the check asks for its proof.
fn nearest_scores()
    ensures { Sizes.NearestScores }
{}
