// Laying out a pool, opening and removing a drawer, listing all: for a host that calls over C. A call answers the documents' number, 0 where it is done; a refused
// one has written nothing.
#![tactic(auto)]

ghost use Rattle.std.specs.Prelude.{◌≡◌, ◌+◌, ◌≤◌, length, take, drop, replicate};
ghost use Rattle.layout.specs.Chain.{encode_state_over};
ghost use Rattle.layout.specs.Left.{left};
ghost use Rattle.layout.specs.Numbers as Numbers;
ghost use Rattle.layout.specs.Places.{state_length};
ghost use Rattle.record_pool.specs.Pool as Pool;
ghost use Rattle.pool_drawers.specs.Drawers as Drawers;
ghost use Rattle.pool_drawers.specs.Steps.{Held, Spare};

use pool_links::{Header, Link};
use predictorcorrector::PredictorCorrector;
use record_pool::Slot;

// Document 01's refusal of a base or a yes/no byte; document 02's of a pool or a listing's slice: numbers, as C is told them.
const RANGE: u8 = 2;

const POOL: u8 = 13;

const POOL_LENGTH: usize = 61_472;

// As in `layout` and `record_pool`: each asks for room, and a `requires` does not cross a crate.
#[tactic(auto, unfolding(layout::specs::Numbers::pasted))]
fn put(out: &mut [u8], at: usize, bytes: &[u8; 4])
    requires { at + 4 ≤ length out.old }
    ensures { out.new ≡ Numbers.pasted out.old at bytes.now }
{
    out[at..at + 4].copy_from_slice(bytes);
}

#[tactic(auto, using(layout::proofs::Words::four))]
fn put_u32(out: &mut [u8], at: usize, n: u32)
    requires { at + 4 ≤ length out.old }
    ensures { out.new ≡ Numbers.pasted out.old at (Numbers.bytes4 n) }
{
    put(out, at, &n.to_le_bytes());
}

#[tactic(auto, unfolding(record_pool::specs::Pool::place))]
fn place(i: usize) -> usize
    requires least { 1 ≤ i }
    requires most { i ≤ 30 }
    ensures { (result ≡ Pool.place i) × (result + 2048 ≤ 61472) }
{
    32 + 2048 * (i - 1)
}

fn put_header(pool: &mut [u8], header: Header)
    requires { length pool.old ≡ 61472 }
    ensures { pool.new ≡ Pool.with_header pool.old header.count header.used header.free }
{
    put_u32(pool, 0, header.count);
    put_u32(pool, 4, header.used);
    put_u32(pool, 8, header.free);
}

fn put_next(pool: &mut [u8], i: usize, next: u32)
    requires long { length pool.old ≡ 61472 }
    requires least { 1 ≤ i }
    requires most { i ≤ 30 }
    ensures { pool.new ≡ Pool.with_next pool.old i next }
{
    put_u32(pool, place(i), next);
}

// A whole record: zeros behind its number.
fn put_record(pool: &mut [u8], i: usize, link: Link)
    requires long { length pool.old ≡ 61472 }
    requires least { 1 ≤ i }
    requires most { i ≤ 30 }
    ensures { pool.new ≡ Pool.with_record pool.old i link.next link.number (replicate 2040 0) }
{
    let at = place(i);
    put_u32(pool, at, link.next);
    put_u32(pool, at + 4, link.number);
    let from = at + 8;
    let upto = at + 2048;
    layout::clear(&mut pool[from..upto]);
}

// The used chain goes on behind the record without it; the record is named as the first free.
fn unlink(pool: &mut [u8], slot: Slot)
    requires { Held pool.old slot }
    ensures { pool.new ≡ Pool.unlinked pool.old slot.front slot.index }
{
    let index = slot.index as u32;
    let front = slot.front as u32;
    put_header(
        pool,
        pool_links::removed(index, front, slot.next, slot.count, slot.used),
    );
    if slot.front != 0 {
        put_next(pool, slot.front, slot.next);
    }
}

fn take_out(pool: &mut [u8], slot: Slot)
    requires { Held pool.old slot }
    ensures { pool.new ≡ Pool.removed pool.old slot.front slot.index }
{
    unlink(pool, slot);
    put_record(pool, slot.index, pool_links::removed_link(slot.free));
}

// The first free record becomes the first used, with the drawer's number and zeros.
fn take_in(pool: &mut [u8], slot: Slot, drawer: u32)
    requires { Spare pool.old slot }
    ensures { pool.new ≡ Pool.opened pool.old drawer (replicate 2040 0) }
{
    let index = slot.index as u32;
    put_header(pool, pool_links::opened(index, slot.next, slot.count));
    put_record(pool, slot.index, pool_links::opened_link(slot.used, drawer));
}

// A state put over the bytes from `at` on.
fn put_state(pool: &mut [u8], at: usize, s: PredictorCorrector)
    requires long { length pool.old ≡ 61472 }
    requires room { at + state_length ≤ 61472 }
    ensures { pool.new ≡ Numbers.pasted pool.old at (encode_state_over (take state_length (drop at pool.old)) s) }
{
    let upto = at + layout::STATE_LENGTH;
    layout::write_state(&mut pool[at..upto], s);
}

// The record behind record i of an empty pool.
fn after(i: usize) -> u32
    requires { i ≤ 30 }
    ensures { result ≡ Drawers.behind i }
{
    if i == 30 {
        return 0;
    }
    (i + 1) as u32
}

fn lay_records(pool: &mut [u8])
    requires { length pool.old ≡ 61472 }
    ensures { pool.new ≡ Drawers.laid_records 30 pool.old }
{
    for k in 0..30 {
        put_next(pool, k + 1, after(k + 1));
    }
}

// An empty pool.
pub fn krcf_pool_lay_out(pool: &mut [u8]) -> u8
    ensures { left result pool.new ≡ Drawers.lay_out pool.old }
{
    if pool.len() == POOL_LENGTH {
        layout::clear(pool);
        put_header(
            pool,
            Header {
                count: 0,
                used: 0,
                free: 1,
            },
        );
        lay_records(pool);
        return 0;
    }
    POOL
}

// Opens a drawer with a new state. The state is made before anything is written, since it may be refused.
pub fn krcf_pool_open(
    pool: &mut [u8],
    drawer: u32,
    discount: f64,
    auto_adjust: u8,
    base_dimension: usize,
) -> u8
    ensures { left result pool.new ≡ Drawers.opening drawer discount auto_adjust base_dimension pool.old }
{
    match record_pool::vacancy(pool, drawer) {
        Ok(slot) => {
            match PredictorCorrector::new(discount, auto_adjust == 1, base_dimension) {
                Ok(s) => {
                    if auto_adjust <= 1 {
                        take_in(pool, slot, drawer);
                        put_state(pool, slot.state, s);
                        return 0;
                    }
                    RANGE
                }
                Err(why) => why.number(),
            }
        }
        Err(why) => why.number(),
    }
}

pub fn krcf_pool_remove(pool: &mut [u8], drawer: u32) -> u8
    ensures { left result pool.new ≡ Drawers.remove drawer pool.old }
{
    match record_pool::locate(pool, drawer) {
        Ok(slot) => {
            take_out(pool, slot);
            0
        }
        Err(why) => why.number(),
    }
}

// The drawers' numbers in the used chain's order, then zeros.
pub fn krcf_pool_list(pool: &[u8], numbers: &mut [u32]) -> u8
    ensures { left result numbers.new ≡ Drawers.list pool.now numbers.old }
{
    if numbers.len() == 30 {
        return match record_pool::listing(pool) {
            Some(found) => {
                numbers.copy_from_slice(&found);
                0
            }
            None => POOL,
        };
    }
    POOL
}
