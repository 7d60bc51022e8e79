// A pool of thirty records in a used and a free chain, in a lent buffer of 61,472 bytes: the test of refusal 13, where a drawer is, and the listing of all.
#![tactic(auto)]

ghost use Rattle.std.specs.Prelude.{◌≡◌, true, false, ◌+◌, ◌≤◌, ◌<◌, length, replicate, take};
ghost use Rattle.layout.specs.Numbers as Numbers;
ghost use Rattle.record_pool.specs.Lists as Lists;
ghost use Rattle.record_pool.specs.Pool as Pool;
ghost use Rattle.record_pool.specs.Steps.{mark_place, is_unmarked, is_sound, is_before, is_taken, WalksTell};

use types::Refusal;

// How many bytes a pool has.
const POOL_LENGTH: usize = 61_472;

// Where in a record its state's two yes/no bytes stand: bytes 124 and 149 of the state, which begins at byte 8.
const AUTO_THRESHOLD_AT: usize = 132;

const AUTO_ADJUST_AT: usize = 157;

// A record, where its state begins in the pool, the used record in front of it (0 where it is the first), the one behind it in its chain, and the header as it
// stands.
#[derive(Clone, Copy)]
pub struct Slot {
    pub index: usize,
    pub state: usize,
    pub front: usize,
    pub next: u32,
    pub count: u32,
    pub used: u32,
    pub free: u32,
}

// What the two walks of a pool found: whether both came to their ends, how many records each met, and the drawer numbers of the used chain.
#[derive(Drop)]
struct Walked {
    fine: bool,
    used: usize,
    free: usize,
    numbers: [u32; 30],
}

// Where a drawer is: its record, 0 where none holds it, and the used record in front of that, 0 where it is the first.
#[derive(Drop)]
struct Position {
    record: usize,
    front: usize,
}

fn index_at(bytes: &[u8], at: usize) -> usize
    requires { at + 4 ≤ length bytes.now }
    ensures { result ≡ Numbers.le4 bytes.now at }
{
    u32_at(bytes, at) as usize
}

// As in `layout`: it asks for room, and a `requires` does not cross a crate.
#[tactic(auto, using(layout::proofs::Words::four_at))]
fn u32_at(bytes: &[u8], at: usize) -> u32
    requires { at + 4 ≤ length bytes.now }
    ensures { result ≡ Numbers.le4 bytes.now at }
{
    let mut four = [0u8; 4];
    four.copy_from_slice(&bytes[at..at + 4]);
    u32::from_le_bytes(four)
}

// Where record i begins.
#[tactic(auto, unfolding(crate::specs::Pool::place))]
fn place(i: usize) -> usize
    requires least { 1 ≤ i }
    requires most { i ≤ 30 }
    ensures { (result ≡ Pool.place i) × (result + 2048 ≤ 61472) }
{
    32 + 2048 * (i - 1)
}

#[tactic(auto, unfolding(crate::specs::Pool::next_at))]
fn next_at(pool: &[u8], i: usize) -> usize
    requires long { length pool.now ≡ 61472 }
    requires least { 1 ≤ i }
    requires most { i ≤ 30 }
    ensures { result ≡ Pool.next_at pool.now i }
{
    index_at(pool, place(i))
}

#[tactic(auto, unfolding(crate::specs::Pool::number_at))]
fn number_at(pool: &[u8], i: usize) -> u32
    requires long { length pool.now ≡ 61472 }
    requires least { 1 ≤ i }
    requires most { i ≤ 30 }
    ensures { result ≡ Pool.number_at pool.now i }
{
    u32_at(pool, place(i) + 4)
}

// Both yes/no bytes of record i are 0 or 1.
#[tactic(auto, unfolding(crate::specs::Pool::flags_at))]
fn flags_at(pool: &[u8], i: usize) -> bool
    requires long { length pool.now ≡ 61472 }
    requires least { 1 ≤ i }
    requires most { i ≤ 30 }
    ensures { result ≡ Pool.flags_at pool.now i }
{
    let at = place(i);
    if pool[at + AUTO_THRESHOLD_AT] <= 1 {
        return pool[at + AUTO_ADJUST_AT] <= 1;
    }
    false
}

#[tactic(auto, unfolding(crate::specs::Steps::is_sound))]
fn is_sound(pool: &[u8], i: usize) -> bool
    requires long { length pool.now ≡ 61472 }
    requires least { 1 ≤ i }
    requires most { i ≤ 30 }
    ensures { result ≡ is_sound pool.now i }
{
    if pool_links::is_number(number_at(pool, i)) {
        return flags_at(pool, i);
    }
    false
}

// Where the mark of a record stands; 0 for what is no record.
#[tactic(auto, unfolding(crate::specs::Steps::mark_place))]
fn mark_place(at: usize) -> usize
    ensures { (result ≡ mark_place at) × (result ≤ 30) }
{
    if at <= 30 {
        return at;
    }
    0
}

// Whether a walk that has met n records may go on to `at`, which is not 0: n below 30, `at` not above 30, and its mark not set.
#[tactic(auto, unfolding(crate::specs::Steps::is_unmarked))]
fn is_unmarked(mark: u8, at: usize, n: usize) -> bool
    ensures { result ≡ is_unmarked mark at n }
{
    if n < 30 {
        if at <= 30 {
            return mark == 0;
        }
    }
    false
}

fn no_marks() -> [u8; 31]
    ensures { result ≡ replicate 31 0 }
{
    [0u8; 31]
}

fn no_numbers() -> [u32; 30]
    ensures { result ≡ replicate 30 0 }
{
    [0u32; 30]
}

fn broken() -> Walked
    ensures { result.fine ≡ false }
{
    Walked {
        fine: false,
        used: 0,
        free: 0,
        numbers: no_numbers(),
    }
}

// Both chains are walked; each record that is met is marked, so that none is met twice.
fn walks(pool: &[u8]) -> Walked
    requires { length pool.now ≡ 61472 }
    ensures { WalksTell pool.now result.fine result.used result.free result.numbers }
{
    let mut seen = no_marks();
    let mut numbers = no_numbers();
    let mut at = index_at(pool, 4);
    let mut used = 0usize;
    while at != 0 {
        if !is_unmarked(seen[mark_place(at)], at, used) {
            return broken();
        }
        if !is_sound(pool, at) {
            return broken();
        }
        seen[at] = 1;
        numbers[used] = number_at(pool, at);
        used += 1;
        at = next_at(pool, at);
    }
    at = index_at(pool, 8);
    let mut free = 0usize;
    while at != 0 {
        if !is_unmarked(seen[mark_place(at)], at, free) {
            return broken();
        }
        seen[at] = 1;
        free += 1;
        at = next_at(pool, at);
    }
    Walked {
        fine: true,
        used,
        free,
        numbers,
    }
}

fn no_places() -> [u8; 64]
    ensures { result ≡ replicate 64 0 }
{
    [0u8; 64]
}

fn is_before(numbers: [u32; 30], k: usize, n: u32) -> bool
    requires { k ≤ 30 }
    ensures { result ≡ is_before numbers k n }
{
    numbers[..k].contains(&n)
}

#[tactic(auto, unfolding(crate::specs::Steps::is_taken))]
fn is_taken(mark: u8, numbers: [u32; 30], k: usize, n: u32) -> bool
    requires { k ≤ 30 }
    ensures { result ≡ is_taken mark numbers k n }
{
    if mark == 0 {
        return false;
    }
    is_before(numbers, k, n)
}

// No number twice. Two numbers are compared only where both have the same remainder by 64.
fn is_distinct(numbers: [u32; 30], n: usize) -> bool
    requires { n ≤ 30 }
    ensures { result ≡ Lists.distinct (take n numbers) }
{
    let mut taken = no_places();
    for k in 0..n {
        let number = numbers[k];
        if is_taken(taken[(number % 64) as usize], numbers, k, number) {
            return false;
        }
        taken[(number % 64) as usize] = 1;
    }
    true
}

// Whether a pool passes the test of 13.
fn rules_ok(pool: &[u8]) -> bool
    ensures { result ≡ Pool.rules_ok pool.now }
{
    if pool.len() != POOL_LENGTH {
        return false;
    }
    let w = walks(pool);
    if w.fine {
        if pool_links::counts_agree(index_at(pool, 0), w.used, w.free) {
            let numbers = w.numbers;
            return is_distinct(numbers, w.used);
        }
    }
    false
}

fn find(pool: &[u8], drawer: u32) -> Position
    requires sound { Pool.rules_ok pool.now ≡ true }
    requires long { length pool.now ≡ 61472 }
    ensures { (result.record ≡ Pool.record_of pool.now drawer) × (result.front ≡ Pool.front_of pool.now drawer) }
{
    let mut at = index_at(pool, 4);
    let mut front = 0usize;
    while at != 0 {
        if number_at(pool, at) == drawer {
            return Position { record: at, front };
        }
        front = at;
        at = next_at(pool, at);
    }
    Position { record: 0, front }
}

fn slot_of(pool: &[u8], index: usize, front: usize) -> Slot
    requires long { length pool.now ≡ 61472 }
    requires least { 1 ≤ index }
    requires most { index ≤ 30 }
    ensures { result ≡ Pool.slot pool.now index front }
{
    let at = place(index);
    Slot {
        index,
        state: at + 8,
        front,
        next: u32_at(pool, at),
        count: u32_at(pool, 0),
        used: u32_at(pool, 4),
        free: u32_at(pool, 8),
    }
}

// Where a drawer is: 13, then 11.
pub fn locate(pool: &[u8], drawer: u32) -> Result<Slot, Refusal>
    ensures { result ≡ Pool.locate pool.now drawer }
{
    if rules_ok(pool) {
        let position = find(pool, drawer);
        if position.record == 0 {
            return Err(Refusal::Drawer);
        }
        return Ok(slot_of(pool, position.record, position.front));
    }
    Err(Refusal::Pool)
}

// The record that a new drawer takes: 13, then 11, then 12.
pub fn vacancy(pool: &[u8], drawer: u32) -> Result<Slot, Refusal>
    ensures { result ≡ Pool.vacancy pool.now drawer }
{
    if rules_ok(pool) {
        if pool_links::is_number(drawer) {
            let position = find(pool, drawer);
            if position.record == 0 {
                let index = index_at(pool, 8);
                if index == 0 {
                    return Err(Refusal::Full);
                }
                return Ok(slot_of(pool, index, 0));
            }
        }
        return Err(Refusal::Drawer);
    }
    Err(Refusal::Pool)
}

// The drawers' numbers in the used chain's order, zeros behind them; none of a pool that 13 refuses.
pub fn listing(pool: &[u8]) -> Option<[u32; 30]>
    ensures { result ≡ Pool.listing pool.now }
{
    if rules_ok(pool) {
        let found = walks(pool);
        return Some(found.numbers);
    }
    None
}
