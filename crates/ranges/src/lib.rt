// The range of each single field of the settings (01: the sheet, refusal 3).
#![tactic(auto)]

ghost use Rattle.std.specs.Prelude.{◌≡◌};
ghost use Rattle.ranges.specs.Range.{method_ok, speed_ok, ratio_ok, torque_ok, option_ok, rated_ok};

#[tactic(auto, using(counts::proofs::Between::within, counts::proofs::Between::under, counts::proofs::Between::over), unfolding(crate::specs::Range::method_ok))]
pub fn method_ok(method: u32) -> bool
    ensures { result ≡ method_ok method }
{
    matches!(method, 1..=2 | 17..=18 | 23..=30 | 33..=35)
}

pub fn speed_ok(speed: u32) -> bool
    ensures { result ≡ speed_ok speed }
{
    matches!(speed, 1..=0xFFFFFFF)
}

pub fn ratio_ok(ratio: u32) -> bool
    ensures { result ≡ ratio_ok ratio }
{
    matches!(ratio, 1..=0x100000)
}

pub fn torque_ok(torque: u32) -> bool
    ensures { result ≡ torque_ok torque }
{
    torque <= 3000
}

pub fn option_ok(option: u32) -> bool
    ensures { result ≡ option_ok option }
{
    matches!(option, 2 | 6)
}

pub fn rated_ok(rated: u32) -> bool
    ensures { result ≡ rated_ok rated }
{
    matches!(rated, 1..=0x1000000)
}
