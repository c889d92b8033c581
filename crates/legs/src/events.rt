// When a leg's event counts in a tick, and when a limit does.
ghost use Rattle.std.specs.Prelude.{◌≡◌, true, ◌%◌, ◌<◌};
ghost use Rattle.counts.specs.Bit.{bit_of, rises};
ghost use Rattle.legs.specs.Numbers.{edge_in, trigger_in, leg_from};
ghost use Rattle.legs.specs.Events.{along, happens, limit_ahead, switches_in, switch_bits, view_of, event_counts, limit_counts};

use counts::Movement;

// The four switches (01: POT, NOT, HOM, Z).
#[derive(Clone, Copy)]
pub struct Switches {
    pub positive: bool,
    pub negative: bool,
    pub home: bool,
    pub index: bool,
}

// The switches in a word's bits 0 to 3, in that order. Every word has four.
impl From<u16> for Switches {
    ghost from_gives = { λ bits s. s ≡ switches_in bits };

    fn from(bits: u16) -> Switches {
        Switches {
            positive: counts::bit(bits, 0),
            negative: counts::bit(bits, 1),
            home: counts::bit(bits, 2),
            index: counts::bit(bits, 3),
        }
    }
}

// The word of the switches, as homing compares and an axis keeps them.
impl From<Switches> for u32 {
    ghost from_gives = { λ s bits. bits ≡ switch_bits s };

    fn from(s: Switches) -> u32 {
        s.positive as u32 + 2 * s.negative as u32 + 4 * s.home as u32 + 8 * s.index as u32
    }
}

// Whether POT is on, and whether NOT is.
pub fn positive_on(switches: u32) -> bool
    ensures { result ≡ (switches_in switches).positive }
{
    crate::is_on(switches, 0)
}

pub fn negative_on(switches: u32) -> bool
    ensures { result ≡ (switches_in switches).negative }
{
    crate::is_on(switches, 1)
}

// What homing sees of one tick after the start (`View`).
// Kept: the switches stay words. A leg asks for one by its place, which fields have not, so `Switches` would be no plainer here.
#[derive(Clone, Copy)]
pub struct Seen {
    pub kept: bool,
    pub halted: bool,
    pub movement: Movement,
    pub before: u32,
    pub now: u32,
}

// Whether a movement goes the leg's way.
fn along_leg(forward: bool, movement: Movement) -> bool
    ensures { result ≡ along forward movement }
{
    match movement {
        Movement::Backward => !forward,
        Movement::Still => false,
        Movement::Forward => forward,
    }
}

// Whether the switch at a place is on now and was not before; with the two words swapped, whether it drops.
fn risen(before: u32, now: u32, place: u32) -> bool
    requires { place < 32 }
    ensures { result ≡ rises (bit_of before place) (bit_of now place) }
{
    !crate::is_on(before, place) & crate::is_on(now, place)
}

// Whether the leg's switch has the leg's edge.
fn edge_seen(leg: u32, seen: Seen) -> bool
    ensures { result ≡ happens (edge_in leg) true (bit_of seen.before (leg % 4)) (bit_of seen.now (leg % 4)) }
{
    if leg / 4 % 2 == 1 {
        risen(seen.now, seen.before, leg % 4)
    } else {
        risen(seen.before, seen.now, leg % 4)
    }
}

// Whether the leg's switch does what the leg awaits: it is on, or it has the leg's edge while the axis moves the leg's way.
fn event_happens(leg: u32, moved: bool, seen: Seen) -> bool
    ensures { result ≡ happens (trigger_in leg) moved (bit_of seen.before (leg % 4)) (bit_of seen.now (leg % 4)) }
{
    let edge = edge_seen(leg, seen);
    if leg / 64 % 2 == 1 {
        crate::is_on(seen.now, leg % 4)
    } else {
        moved & edge
    }
}

// Whether the limit in travel direction is on.
fn limit_on(forward: bool, switches: u32) -> bool
    ensures { result ≡ limit_ahead forward (switches_in switches) }
{
    if forward {
        positive_on(switches)
    } else {
        negative_on(switches)
    }
}

// Whether the event of a route's first leg counts.
#[tactic(auto, using(crate::proofs::Numbers::event_test))]
pub fn event_counts(leg: u32, seen: Seen) -> bool
    ensures { result ≡ event_counts (leg_from leg) (view_of seen) }
{
    let moved = along_leg(crate::is_forward(leg), seen.movement);
    let happens = event_happens(leg, moved, seen);
    !seen.halted & happens
}

// Whether the limit in that leg's direction counts: it is on, with or without movement, in a tick that is not halted.
#[tactic(auto, unfolding(crate::specs::Events::limit_counts))]
pub fn limit_counts(leg: u32, seen: Seen) -> bool
    ensures { result ≡ limit_counts (leg_from leg) (view_of seen) }
{
    let on = limit_on(crate::is_forward(leg), seen.now);
    !seen.halted & on
}
