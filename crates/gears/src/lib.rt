// The gear: user units to counts, and whether the position limits are in reach (01: refusal 6).
#![tactic(auto)]

pub mod narrow;

ghost use Rattle.std.specs.Prelude.{◌≡◌, ◌/◌, ◌%◌, ◌^◌, ◌≤◌, ◌<◌, min};
ghost use Rattle.std.specs.Int.Signed.{mag};
ghost use Rattle.counts.specs.Wrap.{wrapped};
ghost use Rattle.counts.specs.Divide.{floor_div};
ghost use Rattle.gears.specs.Gear.{within_limits, divisor_of, geared_of, within_reach, in_reach};

use settings::Settings;

// A target within the position limits.
pub fn within_limits(s: Settings, target: i32) -> i32
    ensures { result ≡ within_limits s target }
{
    counts::clamp(target, s.lower, s.upper)
}

// A gear's denominator, as what products are divided by.
//
// Here and in `narrow.rt` `min` and `max` are called by their paths, fields stand in place of methods, and a sign is turned by hand: `.ci/narrow`,
// which looks that the narrow gear has no number wider than 32 bits, reads no method.
#[derive(Clone, Copy)]
struct Denominator {
    value: u32,
    ghost in_range: { (0 < value) × (value ≤ 2 ^ 20) },
}

// A gear's numerator and its denominator are at most 2^20.
fn capped(term: u32) -> u32
    ensures { result ≡ min term (2 ^ 20) }
{
    std::cmp::min(term, 0x100000)
}

// And its denominator is at least 1: capped first, so that the compiler sees that no division is by 0.
fn divisor(denominator: u32) -> Denominator
    ensures { result.value ≡ divisor_of denominator }
{
    Denominator {
        value: std::cmp::max(capped(denominator), 1),
    }
}

// p over d, modulo 2^32: long division in 32 bits, of all but the low 24 bits first, then of twelve bits at a time. What is left over from the digits
// above is below d, so that it and the next digit fit. The module divides by software, where three short divisions cost far less than a long one.
fn quotient(p: u64, d: Denominator) -> u32
    requires { p < 2 ^ 56 }
    ensures { result ≡ p / d.value % 2 ^ 32 }
{
    let d = d.value;
    let top = (p >> 24) as u32;
    let mid = (top % d) * 0x1000 + ((p >> 12) % 0x1000) as u32;
    let low = (mid % d) * 0x1000 + (p % 0x1000) as u32;
    (top / d % 0x100) * 0x1000000 + mid / d * 0x1000 + low / d
}

// x over d, rounded towards minus infinity, modulo 2^32 and read as signed.
fn floored(x: i64, d: Denominator) -> i32
    requires { mag x < 2 ^ 56 }
    ensures { result ≡ wrapped (floor_div x d.value) }
{
    if x >= 0 {
        quotient(x as u64, d).cast_signed()
    } else {
        -1 - quotient((-1 - x) as u64, d).cast_signed()
    }
}

// The wide gear: a position in user units as counts from home, modulo 2^32 and read as signed.
pub fn geared(s: Settings, position: i32) -> i32
    ensures { result ≡ wrapped (geared_of s position) }
{
    let units = position as i64 - s.offset as i64;
    floored(units * capped(s.numerator) as i64, divisor(s.denominator))
}

// Whether a position's count from home is within 2^30 either way. A quotient, rounded down, is at most 2^30 where it is below
// 2^30 + 1: so products are compared, and nothing is divided.
fn within_reach(s: Settings, position: i32) -> bool
    ensures { result ≡ within_reach s position }
{
    let product = (position as i64 - s.offset as i64) * capped(s.numerator) as i64;
    let d = divisor(s.denominator).value as i64;
    // Kept: `contains` on a range of two products is no plainer than the two comparisons that the comment above speaks of.
    (-0x40000000 * d <= product) & (product < 0x40000001 * d)
}

// Both position limits are in reach.
pub fn in_reach(s: Settings) -> bool
    ensures { result ≡ in_reach s }
{
    within_reach(s, s.lower) & within_reach(s, s.upper)
}
