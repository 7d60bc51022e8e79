// What a run of the export watch decides of a row by numbers alone: whether it is of the watched drawer, whether that drawer may have one more, and its number.
#![tactic(auto)]

ghost use Rattle.std.specs.Prelude.{◌≡◌};
ghost use Rattle.watched_rows.specs.Deciding as Deciding;

// The drawer's 65,537th sound row ends a run.
const MOST_ROWS: u64 = 65536;

// The header's number.
const FIRST_NUMBER: u64 = 1;

// Whether a run watches that drawer: it is the watched one, or none is watched yet, which 0 tells.
pub fn is_watched(watched: u32, drawer: u32) -> bool
    ensures { result ≡ Deciding.is_watched watched drawer }
{
    (watched == 0) | (watched == drawer)
}

// Whether a drawer with so many rows may have one more.
pub fn goes_on(rows: u64) -> bool
    ensures { result ≡ Deciding.goes_on rows }
{
    rows < MOST_ROWS
}

// The number of the first row.
pub fn first_number() -> u64
    ensures { result ≡ Deciding.first_number }
{
    FIRST_NUMBER
}

// The number of the row behind that one.
pub fn next_number(row: u64) -> u64
    ensures { result ≡ Deciding.next_number row }
{
    if row < u64::MAX {
        return row + 1;
    }
    row
}
