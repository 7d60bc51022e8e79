// The C functions of the crate pool_settings, exported: each calls the library's function of its name and keeps its contract. The kit takes a crate as a library or as a static library, so C needs both.
#![tactic(auto)]

ghost use Rattle.std.specs.Prelude.{◌≡◌, ◌+◌, ◌≤◌, ◌<◌, length};
ghost use Rattle.layout.specs.Left.{left};
ghost use Rattle.layout.specs.Numbers as Numbers;
ghost use Rattle.layout.specs.Places.{state_length};
ghost use Rattle.pool_settings.specs.Sameness.{same_float};
ghost use Rattle.pool_settings.specs.Settings as Settings;
ghost use Rattle.pool_settings.specs.Steps as Steps;

// Each setter changes one number of the drawer's state: 13, then 11. The chain's lower threshold is the thresholder's absolute threshold.
#[unsafe(no_mangle)]
pub extern "C" fn krcf_pool_set_z_factor(pool: &mut [u8], drawer: u32, factor: f32) -> u8
    ensures { left result pool.new ≡ Settings.set (Settings.z_factor factor) drawer pool.old }
{
    pool_settings::krcf_pool_set_z_factor(pool, drawer, factor)
}

#[unsafe(no_mangle)]
pub extern "C" fn krcf_pool_set_lower_threshold(pool: &mut [u8], drawer: u32, lower: f32) -> u8
    ensures { left result pool.new ≡ Settings.set (Settings.lower_threshold lower) drawer pool.old }
{
    pool_settings::krcf_pool_set_lower_threshold(pool, drawer, lower)
}

#[unsafe(no_mangle)]
pub extern "C" fn krcf_pool_set_initial_threshold(pool: &mut [u8], drawer: u32, initial: f32) -> u8
    ensures { left result pool.new ≡ Settings.set (Settings.initial_threshold initial) drawer pool.old }
{
    pool_settings::krcf_pool_set_initial_threshold(pool, drawer, initial)
}

// A horizon is refused by 7, after the drawer.
#[unsafe(no_mangle)]
pub extern "C" fn krcf_pool_set_horizon(pool: &mut [u8], drawer: u32, horizon: f32) -> u8
    ensures { left result pool.new ≡ Settings.set (Settings.horizon horizon) drawer pool.old }
{
    pool_settings::krcf_pool_set_horizon(pool, drawer, horizon)
}
