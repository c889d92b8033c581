// The speed that a tick commands: that of the homing leg in which the axis moves.
#![tactic(auto)]

ghost use Rattle.std.specs.Prelude.{◌≡◌, ◌-◌, ◌^◌, min};
ghost use Rattle.legs.specs.Numbers.{leg_from};
ghost use Rattle.speed.specs.Speed.{signed_of, leg_speed};

use settings::Settings;

// A magnitude, at most 2^28 - 1, with the sign of a direction.
#[tactic(auto, unfolding(crate::specs::Speed::signed_of))]
fn signed(forward: bool, speed: u32) -> i32
    ensures { result ≡ signed_of forward speed }
{
    let magnitude = speed.min(0xFFFFFFF) as i32;
    if forward { magnitude } else { -magnitude }
}

// The speed of a leg, the first of a route.
pub fn speed(s: Settings, leg: u32) -> i32
    ensures { result ≡ leg_speed s (leg_from leg) }
{
    let magnitude = if legs::is_fast(leg) { s.fast } else { s.slow };
    signed(legs::is_forward(leg), magnitude)
}
