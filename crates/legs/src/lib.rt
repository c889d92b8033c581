// The legs of every method's routes (01: "Homing routes"; 02, (i) and (ii)), and when a leg's event counts.
//
// Kept: legs and routes are numbers. C lends the words in which an axis keeps its route, and every content of such a word is one (`phase_of` of homing).
// A leg is a byte: the place of its switch (0 POT, 1 NOT, 2 HOM, 3 Z), 4 more if it awaits the drop, 8 more if it goes forward, 16 more if it is
// fast, 32 more if a limit turns it to route b, 64 more if the switch need only be on. A route is a number: a byte for each leg, the first lowest.
#![tactic(auto)]

pub mod events;

ghost use Rattle.std.specs.Prelude.{◌<◌, ◌^◌, ◌≡◌};
ghost use Rattle.counts.specs.Bit.{bit_of};
ghost use Rattle.legs.specs.Events.{switches_in};
ghost use Rattle.legs.specs.Numbers.{main_route, turn_route, skip_by, start_route, forward_in, fast_in, turns_in};

// Route a. F is fast, S slow; R, D, L and Z are 01's events, L by level; B is the drop of the limit behind. 35 and a number that is no method have
// no leg.
#[tactic(auto, unfolding(crate::specs::Numbers::main_route, crate::specs::Routes::row_of))]
fn main_route(method: u32) -> u32
    ensures { result ≡ main_route method }
{
    match method {
        1 => 0x0b_0d_51, // -F L, +S B, +S Z
        2 => 0x03_04_58, // 1 turned, with POT for NOT
        17 => 0x0d_51, // -F L, +S B
        18 => 0x04_58,
        23 => 0x06_3a, // +F R, -S D
        24 => 0x0a_06_3a, // +F R, -S D, +S R
        25 => 0x02_3e, // +F D, -S R
        26 => 0x0e_06_3a, // +F R, -S D, +S D
        27 => 0x0e_32, // 23 turned
        28 => 0x02_0e_32,
        29 => 0x0a_36,
        30 => 0x06_0e_32,
        33 => 0x03, // -S Z
        34 => 0x0b, // +S Z
        _ => 0,
    }
}

// Route b without its first leg: route a of another method, that of 30 for 23, of 29 for 24, and so on; but no limit turns it again. 0
// where there is none.
#[tactic(auto, using(crate::proofs::Rows::turn_rule, crate::proofs::Rows::turns_main))]
pub fn turn_route(method: u32) -> u32
    ensures value { result ≡ turn_route method }
    ensures small { result < 2 ^ 24 }
{
    match method {
        23..=30 => main_route(53 - method) - 32,
        _ => 0,
    }
}

// Route c of a method up to 30: b without its first two legs, or a without its first.
fn skip_route(method: u32, main: u32) -> u32
    requires { main ≡ main_route method }
    ensures { result ≡ skip_by method }
{
    match method {
        25 | 26 | 29 | 30 => turn_route(method) / 256,
        _ => main / 256,
    }
}

// Whether the switch at a place is on.
// Kept beside `counts::bit`: that one answers any place of a 16-bit word, which costs a test; a leg's place is below 4.
fn is_on(switches: u32, place: u32) -> bool
    requires { place < 32 }
    ensures { result ≡ bit_of switches place }
{
    (switches >> place) % 2 == 1
}

// The route of a start, by the switches of its tick. The switch that picks route c is the one that a's first leg awaits, HOM, NOT or POT; 33 to
// 35 have one route.
#[tactic(auto, using(crate::proofs::Rows::start_by))]
pub fn start_route(method: u32, switches: u32) -> u32
    ensures value { result ≡ start_route method (switches_in switches) }
    ensures small { result < 2 ^ 24 }
{
    let main = main_route(method);
    if (method <= 30) & is_on(switches, main % 4) {
        skip_route(method, main)
    } else {
        main
    }
}

// Of a route's first leg: its direction, its speed, and whether a limit turns it.
pub fn is_forward(leg: u32) -> bool
    ensures { result ≡ forward_in leg }
{
    leg / 8 % 2 == 1
}

pub fn is_fast(leg: u32) -> bool
    ensures { result ≡ fast_in leg }
{
    leg / 16 % 2 == 1
}

pub fn turns(leg: u32) -> bool
    ensures { result ≡ turns_in leg }
{
    leg / 32 % 2 == 1
}
