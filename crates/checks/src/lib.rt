// What an acceptable set of settings is, and why one is refused (01: refusals 3, 5 and 6).
#![tactic(auto)]

ghost use Rattle.std.specs.Prelude.{◌≡◌};
ghost use Rattle.checks.specs.Check.{limits_apart, limits_verdict, verdict_of};

use settings::{Refusal, Settings};

fn limits_apart(s: Settings) -> bool
    ensures { result ≡ limits_apart s }
{
    s.lower < s.upper
}

// Tests 5 and 6: the position limits, of settings whose fields have been tested already.
#[tactic(auto, unfolding(crate::specs::Check::limits_verdict))]
pub fn check_limits(s: Settings) -> Result<(), Refusal>
    ensures { result ≡ limits_verdict s }
{
    if !limits_apart(s) {
        return Err(Refusal::LimitsCrossed);
    }
    if !gears::in_reach(s) {
        return Err(Refusal::OutOfReach);
    }
    Ok(())
}

// Tests 3, 5 and 6: whether settings may be used.
#[tactic(auto, unfolding(crate::specs::Check::verdict_of))]
pub fn check(s: Settings) -> Result<(), Refusal>
    ensures { result ≡ verdict_of s }
{
    if !settings::fields::in_range(s) {
        return Err(Refusal::OutOfRange);
    }
    check_limits(s)
}
