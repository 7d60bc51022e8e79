// The C functions of the crate pool_drawers, exported: each calls the library's function of its name and keeps its contract. The kit takes a crate as a library or as a static library, so C needs both.
#![tactic(auto)]

ghost use Rattle.std.specs.Prelude.{◌≡◌, ◌+◌, ◌≤◌, length, take, drop, replicate};
ghost use Rattle.layout.specs.Chain.{encode_state_over};
ghost use Rattle.layout.specs.Left.{left};
ghost use Rattle.layout.specs.Numbers as Numbers;
ghost use Rattle.layout.specs.Places.{state_length};
ghost use Rattle.record_pool.specs.Pool as Pool;
ghost use Rattle.pool_drawers.specs.Drawers as Drawers;
ghost use Rattle.pool_drawers.specs.Steps.{Held, Spare};

// An empty pool.
#[unsafe(no_mangle)]
pub extern "C" fn krcf_pool_lay_out(pool: &mut [u8]) -> u8
    ensures { left result pool.new ≡ Drawers.lay_out pool.old }
{
    pool_drawers::krcf_pool_lay_out(pool)
}

// Opens a drawer with a new state. The state is made before anything is written, since it may be refused.
#[unsafe(no_mangle)]
pub extern "C" fn krcf_pool_open(
    pool: &mut [u8],
    drawer: u32,
    discount: f64,
    auto_adjust: u8,
    base_dimension: usize,
) -> u8
    ensures { left result pool.new ≡ Drawers.opening drawer discount auto_adjust base_dimension pool.old }
{
    pool_drawers::krcf_pool_open(pool, drawer, discount, auto_adjust, base_dimension)
}

#[unsafe(no_mangle)]
pub extern "C" fn krcf_pool_remove(pool: &mut [u8], drawer: u32) -> u8
    ensures { left result pool.new ≡ Drawers.remove drawer pool.old }
{
    pool_drawers::krcf_pool_remove(pool, drawer)
}

// The drawers' numbers in the used chain's order, then zeros.
#[unsafe(no_mangle)]
pub extern "C" fn krcf_pool_list(pool: &[u8], numbers: &mut [u32]) -> u8
    ensures { left result numbers.new ≡ Drawers.list pool.now numbers.old }
{
    pool_drawers::krcf_pool_list(pool, numbers)
}
