// The position that a tick commands: the followed target as a count, or the actual position.
#![tactic(auto)]

ghost use Rattle.std.specs.Prelude.{◌≡◌};
ghost use Rattle.position.specs.Position.{followed_of, count_of, position_of, outside_of, clamped_of};

use gears::narrow;
use settings::Settings;
use states::State;

// A target is followed where position is matched, the drive is in Operation enabled and the axis is homed.
pub fn follow(matched: bool, state: State, homed: bool, target: i32) -> Option<i32>
    ensures { result ≡ followed_of matched state homed target }
{
    (matched & (state == State::OperationEnabled) & homed).then_some(target)
}

// The target's count by the wide gear, which answers every target.
// Kept: settings, home and target stay three arguments, since they are of three owners and together in these two functions alone.
fn wide_count(s: Settings, home: i32, target: i32) -> i32
    ensures { result ≡ count_of s home target }
{
    let near = gears::within_limits(s, target);
    let count = gears::geared(s, near);
    counts::sum(home, count)
}

// The target's count: by the narrow gear where it answers.
fn count_of(s: Settings, home: i32, target: i32) -> i32
    ensures { result ≡ count_of s home target }
{
    match narrow::geared(s, target) {
        None => wide_count(s, home, target),
        Some(count) => counts::sum(home, count),
    }
}

// The commanded position, in counts.
pub fn position(s: Settings, home: i32, target: Option<i32>, actual: i32) -> i32
    ensures { result ≡ position_of s home target actual }
{
    target.map_or(actual, |t| count_of(s, home, t))
}

fn outside(s: Settings, target: i32) -> bool
    ensures { result ≡ outside_of s target }
{
    !(s.lower..=s.upper).contains(&target)
}

// Whether the followed target was clamped.
pub fn is_clamped(s: Settings, target: Option<i32>) -> bool
    ensures { result ≡ clamped_of s target }
{
    target.is_some_and(|t| outside(s, t))
}
