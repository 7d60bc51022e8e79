// What is decided of a record pool by numbers alone: which drawer numbers there are, whether the chains' lengths agree, and the links that an opening or a removal
// leaves.
#![tactic(auto)]

ghost use Rattle.std.specs.Prelude.{◌≡◌, cond, ◌-◌, eqb};
ghost use Rattle.pool_links.specs.Numbers as Numbers;
ghost use Rattle.pool_links.specs.Links as Links;

// The records of a pool, and so the most drawers.
const RECORDS: usize = 30;

const MOST_DRAWERS: u32 = 30;

const LARGEST_NUMBER: u32 = 65535;

// A pool's header.
#[derive(Clone, Copy)]
pub struct Header {
    pub count: u32,
    pub used: u32,
    pub free: u32,
}

// What stands in front of a record's state.
#[derive(Clone, Copy)]
pub struct Link {
    pub next: u32,
    pub number: u32,
}

#[tactic(auto, unfolding(crate::specs::Numbers::is_number))]
pub fn is_number(n: u32) -> bool
    ensures { result ≡ Numbers.is_number n }
{
    (1 <= n) & (n <= LARGEST_NUMBER)
}

#[tactic(auto, unfolding(crate::specs::Links::counts_agree))]
pub fn counts_agree(count: usize, used: usize, free: usize) -> bool
    ensures { result ≡ Links.counts_agree count used free }
{
    if used == count {
        if used <= RECORDS {
            if free <= RECORDS {
                return used + free == RECORDS;
            }
        }
    }
    false
}

#[tactic(auto, unfolding(crate::specs::Links::one_more))]
fn one_more(count: u32) -> u32
    ensures { result ≡ Links.one_more count }
{
    if count < MOST_DRAWERS {
        return count + 1;
    }
    MOST_DRAWERS
}

pub fn opened(index: u32, next: u32, count: u32) -> Header
    ensures { result ≡ Links.opened index next count }
{
    Header {
        count: one_more(count),
        used: index,
        free: next,
    }
}

fn first_used(front: u32, next: u32, used: u32) -> u32
    ensures { result ≡ cond (eqb front 0) next used }
{
    if front == 0 {
        return next;
    }
    used
}

pub fn removed(index: u32, front: u32, next: u32, count: u32, used: u32) -> Header
    ensures { result ≡ Links.removed index front next count used }
{
    Header {
        count: count.saturating_sub(1),
        used: first_used(front, next, used),
        free: index,
    }
}

pub fn opened_link(used: u32, drawer: u32) -> Link
    ensures { result ≡ Links.opened_link used drawer }
{
    Link {
        next: used,
        number: drawer,
    }
}

pub fn removed_link(free: u32) -> Link
    ensures { result ≡ Links.removed_link free }
{
    Link {
        next: free,
        number: 0,
    }
}
