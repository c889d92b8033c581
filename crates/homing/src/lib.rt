// Homing (01: "Homing routes"): where it stands after a tick.
#![tactic(auto)]

ghost use Rattle.std.specs.Prelude.{◌<◌, ◌^◌, ◌≡◌, true};
ghost use Rattle.legs.specs.Events.{switches_in, view_of};
ghost use Rattle.homing.specs.Phase.{phase_of, homed_in, running_in, failed_in};
ghost use Rattle.homing.specs.Steps.{entered, limit_at, running_of, start_of, step_of, stopped_of};

use legs::events;
use legs::events::Seen;

// Kept: a number, no enum and no struct with a model, since C lends the word in which it stands, and every content of that word means a phase
// (`phase_of`).
// Where homing stands, as one number: idle, homed, failed (also any number above that), or else the running leg and those after it, a route of
// `legs`.
pub const IDLE: u32 = 0;

pub const HOMED: u32 = 0x8000_0000;

pub const FAILED: u32 = 0x8000_0001;

// A route's first leg runs; the axis is homed where there is none.
#[tactic(auto, using(crate::proofs::Phases::running), unfolding(crate::specs::Phase::phase_of))]
fn enter(route: u32) -> u32
    requires { route < 2 ^ 31 }
    ensures { phase_of result ≡ entered route }
{
    if route == 0 { HOMED } else { route }
}

// A limit turns route a's first leg to route b's second; any other leg fails.
#[tactic(auto, using(crate::proofs::Phases::running), unfolding(crate::specs::Phase::phase_of))]
fn at_limit(route: u32, method: u32) -> u32
    ensures { phase_of result ≡ limit_at method route }
{
    if !legs::turns(route) {
        return FAILED;
    }
    let turned = legs::turn_route(method);
    if turned == 0 { FAILED } else { turned }
}

// One tick in a route's first leg. A halted one asks neither test: both would say no.
#[tactic(auto, using(crate::proofs::Phases::runs), unfolding(crate::specs::Phase::phase_of, crate::specs::Steps::running_of))]
fn run(route: u32, method: u32, seen: Seen) -> u32
    requires { running_in (phase_of route) ≡ true }
    ensures { phase_of result ≡ running_of method route (view_of seen) }
{
    if !seen.kept {
        return IDLE;
    }
    if seen.halted {
        return route;
    }
    if events::event_counts(route, seen) {
        return enter(route / 256);
    }
    if events::limit_counts(route, seen) {
        at_limit(route, method)
    } else {
        route
    }
}

// Homing after its start tick, with this tick's switches, as bits. A number that is no method makes homing idle.
#[tactic(auto, using(crate::proofs::Starts::start_tests), unfolding(crate::specs::Phase::phase_of))]
pub fn start(method: u32, switches: u32) -> u32
    ensures { phase_of result ≡ start_of method (switches_in switches) }
{
    let route = legs::start_route(method, switches);
    if (route == 0) & (method != 35) {
        IDLE
    } else {
        enter(route)
    }
}

// Homing after a later tick.
#[tactic(auto, using(crate::proofs::Phases::runs))]
pub fn step(phase: u32, method: u32, seen: Seen) -> u32
    ensures { phase_of result ≡ step_of (phase_of phase) method (view_of seen) }
{
    if is_running(phase) {
        run(phase, method, seen)
    } else {
        phase
    }
}

// Homing after a later tick that does not keep it.
#[tactic(auto, using(crate::proofs::Phases::runs), unfolding(crate::specs::Phase::phase_of))]
pub fn stop(phase: u32) -> u32
    ensures { phase_of result ≡ stopped_of (phase_of phase) }
{
    if is_running(phase) { IDLE } else { phase }
}

#[tactic(auto, using(crate::proofs::Phases::homed_test))]
pub fn is_homed(phase: u32) -> bool
    ensures { result ≡ homed_in (phase_of phase) }
{
    phase == HOMED
}

#[tactic(auto, using(crate::proofs::Phases::running_test))]
pub fn is_running(phase: u32) -> bool
    ensures { result ≡ running_in (phase_of phase) }
{
    (phase != IDLE) & (phase < HOMED)
}

#[tactic(auto, using(crate::proofs::Phases::failed_test))]
pub fn has_failed(phase: u32) -> bool
    ensures { result ≡ failed_in (phase_of phase) }
{
    phase > HOMED
}
