// A paper rail (02, (vii)): which rails fit, the switches at a cell, and how far a leg moves the carriage.
#![tactic(auto)]

ghost use Rattle.std.specs.Prelude.{◌≡◌};
ghost use Rattle.legs.specs.Numbers.{leg_from};
ghost use Rattle.carriage.specs.Rail.{sized, sizes_fit, ticks_fit, cam_fits, on_rail, rail_fits, switches_at, cells_of, stride_of};

use legs::events::Switches;

// All in cells.
#[derive(Clone, Copy)]
pub struct Rail {
    // POT is on from here on (02: L).
    pub length: u32,
    // The cam's first cell, and how many it has (02: u and w).
    pub cam: u32,
    pub width: u32,
    // The carriage's way in a tick of a fast leg, and of a slow one (02: f and s).
    pub fast: u32,
    pub slow: u32,
}

#[tactic(auto, unfolding(crate::specs::Rail::sized))]
fn is_sized(n: u32) -> bool
    ensures { result ≡ sized n }
{
    (1..=0x100000).contains(&n)
}

#[tactic(auto, unfolding(crate::specs::Rail::sizes_fit))]
fn sizes_fit(rail: Rail) -> bool
    ensures { result ≡ sizes_fit rail }
{
    is_sized(rail.length)
        & is_sized(rail.cam)
        & is_sized(rail.width)
        & is_sized(rail.fast)
        & is_sized(rail.slow)
}

#[tactic(auto, unfolding(crate::specs::Rail::ticks_fit))]
fn ticks_fit(ticks: u32) -> bool
    ensures { result ≡ ticks_fit ticks }
{
    (1..=0x1000000).contains(&ticks)
}

#[tactic(auto, unfolding(crate::specs::Rail::cam_fits))]
fn cam_fits(rail: Rail) -> bool
    ensures { result ≡ cam_fits rail }
{
    rail.cam as u64 + rail.width as u64 <= rail.length as u64
}

fn is_on_rail(rail: Rail, start: i32) -> bool
    ensures { result ≡ on_rail rail start }
{
    (0..rail.length as i64).contains(&(start as i64))
}

// Whether a run from a start cell, given so many ticks, may be made on the rail.
#[tactic(auto, unfolding(crate::specs::Rail::rail_fits))]
pub fn fits(rail: Rail, start: i32, ticks: u32) -> bool
    ensures { result ≡ rail_fits rail start ticks }
{
    sizes_fit(rail) & ticks_fit(ticks) & cam_fits(rail) & is_on_rail(rail, start)
}

// The switches at a cell.
pub fn switches_at(rail: Rail, cell: i64) -> Switches
    ensures { result ≡ switches_at rail cell }
{
    let first = rail.cam as i64;
    let end = first + rail.width as i64;
    Switches {
        positive: rail.length as i64 <= cell,
        negative: cell < 0,
        home: (first..end).contains(&cell),
        index: false,
    }
}

fn leg_cells(rail: Rail, leg: u32) -> u32
    ensures { result ≡ cells_of rail (leg_from leg) }
{
    if legs::is_fast(leg) {
        rail.fast
    } else {
        rail.slow
    }
}

// How far a leg, the first of a route, moves the carriage in a tick, and to which side.
pub fn stride(rail: Rail, leg: u32) -> i64
    ensures { result ≡ stride_of rail (leg_from leg) }
{
    let cells = leg_cells(rail, leg) as i64;
    if legs::is_forward(leg) { cells } else { -cells }
}
