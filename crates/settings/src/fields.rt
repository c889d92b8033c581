// Every field of the settings in its range (01: refusal 3). Offset and position limits have 32 bits, as an i32 has: every one is in range.
ghost use Rattle.std.specs.Prelude.{◌≡◌};
ghost use Rattle.settings.specs.Ranges.{route_ok, gear_ok, torques_ok, drive_ok, in_range};

use crate::Settings;

fn route_ok(s: Settings) -> bool
    ensures { result ≡ route_ok s }
{
    ranges::method_ok(s.method) & ranges::speed_ok(s.fast) & ranges::speed_ok(s.slow)
}

fn gear_ok(s: Settings) -> bool
    ensures { result ≡ gear_ok s }
{
    ranges::ratio_ok(s.numerator) & ranges::ratio_ok(s.denominator)
}

fn torques_ok(s: Settings) -> bool
    ensures { result ≡ torques_ok s }
{
    ranges::torque_ok(s.maximum)
        & ranges::torque_ok(s.positive1)
        & ranges::torque_ok(s.negative1)
        & ranges::torque_ok(s.positive2)
        & ranges::torque_ok(s.negative2)
        & ranges::torque_ok(s.homing)
}

fn drive_ok(s: Settings) -> bool
    ensures { result ≡ drive_ok s }
{
    ranges::option_ok(s.option) & ranges::rated_ok(s.rated)
}

// Every field is in its range.
pub fn in_range(s: Settings) -> bool
    ensures { result ≡ in_range s }
{
    route_ok(s) & gear_ok(s) & torques_ok(s) & drive_ok(s)
}
