// The torque that a tick commands: a demand held within the torque limits of the settings.
#![tactic(auto)]

ghost use Rattle.std.specs.Prelude.{◌≡◌, min};
ghost use Rattle.commands.specs.Commands.{whole_demand};
ghost use Rattle.counts.specs.Clamp.{clamped};
ghost use Rattle.torque.specs.Limits.{ceiling_of, guarded, bounds_of, chosen_bounds};
ghost use Rattle.torque.specs.Torque.{torque_of};

use commands::Demand;
use modes::Mode;
use settings::Settings;

// The choice of a tick between the two sets of torque limits.
#[derive(Clone, Copy)]
pub enum LimitSet {
    Set1,
    Set2,
}

// Bounds of a torque, negative and positive, in thousandths of the rated torque.
#[derive(Clone, Copy)]
pub struct Bounds {
    pub low: i32,
    pub high: i32,
}

// What caps every limit in a shown mode: the maximum, in homing mode the homing torque too.
fn ceiling(s: Settings, mode: Mode) -> u32
    ensures { result ≡ ceiling_of s mode }
{
    if mode == Mode::Homing {
        s.maximum.min(s.homing)
    } else {
        s.maximum
    }
}

// The cap of a limit; and, of values that no settings in range have, at most what an i32 holds.
fn cap(ceiling: u32, limit: u32) -> u32
    ensures { result ≡ guarded (min ceiling limit) }
{
    ceiling.min(limit).min(0x7FFFFFFF)
}

fn bounds_of(ceiling: u32, positive: u32, negative: u32) -> Bounds
    ensures { result ≡ bounds_of (min ceiling positive) (min ceiling negative) }
{
    Bounds {
        low: -(cap(ceiling, negative) as i32),
        high: cap(ceiling, positive) as i32,
    }
}

// The bounds of a tick that shows this mode and chose this set.
#[tactic(auto, unfolding(crate::specs::Limits::cap_of))]
pub fn chosen_bounds(s: Settings, mode: Mode, set: LimitSet) -> Bounds
    ensures { result ≡ chosen_bounds s mode set }
{
    let ceiling = ceiling(s, mode);
    match set {
        LimitSet::Set1 => bounds_of(ceiling, s.positive1, s.negative1),
        LimitSet::Set2 => bounds_of(ceiling, s.positive2, s.negative2),
    }
}

// A demand held within bounds.
fn held(demand: Demand, b: Bounds) -> i32
    ensures { result ≡ clamped (whole_demand demand) b.low b.high }
{
    match demand {
        Demand::Request(request) => counts::clamp(i32::from(request), b.low, b.high),
        Demand::Quotient(q) => hybrid::demand(q, b.low, b.high),
    }
}

// The torque of a demand; mode: the shown one; on: the drive is live and the command matched.
#[tactic(auto, unfolding(crate::specs::Torque::torque_of))]
pub fn torque(s: Settings, mode: Mode, set: LimitSet, on: bool, demand: Demand) -> i32
    ensures { result ≡ torque_of s mode set on (whole_demand demand) }
{
    if on {
        held(demand, chosen_bounds(s, mode, set))
    } else {
        0
    }
}
