// The narrow gear (02, (iii)): a target's count from home, with no number wider than 32 bits. The module multiplies two words to one in one
// instruction, and for more, and for every division, calls a routine.
ghost use Rattle.std.specs.Prelude.{◌≡◌, ◌*◌, ◌/◌, ◌^◌, ◌≤◌, ◌<◌, pos, neg_ℤ};
ghost use Rattle.counts.specs.Divide.{floor_div};
ghost use Rattle.gears.specs.Gear.{divisor_of};
ghost use Rattle.gears.specs.Narrow.{biased_of, held_product, narrowed, narrow_of};

use settings::Settings;

// 2^31 more. Of two numbers raised like this the difference is that of the two, whatever their signs. This compiles to one bit turned.
// Kept: `cast_unsigned` is a method, which `.ci/narrow` does not read.
fn biased(x: i32) -> u32
    ensures { result ≡ biased_of x }
{
    if x >= 0 {
        x as u32 + 0x80000000
    } else {
        0x7FFFFFFF - (-1 - x) as u32
    }
}

// A product by the halves of its greater factor, held at 2^31 + 2^16, which fits no 32 bits signed: `top` is all of it but the low 16 bits.
fn product_by_halves(lesser: u32, greater: u32) -> u32
    requires { lesser ≤ greater }
    ensures { result ≡ held_product lesser greater }
{
    if lesser >= 0x10000 {
        return 0x80010000;
    }
    let low = greater % 0x10000 * lesser;
    let top = greater / 0x10000 * lesser + low / 0x10000;
    if top > 0x8000 {
        0x80010000
    } else {
        top * 0x10000 + low % 0x10000
    }
}

// The product of any two, held likewise.
fn product(a: u32, b: u32) -> u32
    ensures { result ≡ held_product a b }
{
    if a < b {
        product_by_halves(a, b)
    } else {
        product_by_halves(b, a)
    }
}

// 2^32 over d, rounded down, for d up to 32; for 1, as near as a word comes. A lower one would give the same quotients, later.
// Kept as a `match`: an array has an index, which is wider than 32 bits (`.ci/narrow`).
fn reciprocal(d: u32) -> u32
    ensures { result * d ≤ 2 ^ 32 }
{
    match d {
        1 => 0xFFFFFFFF,
        2 => 0x80000000,
        3 => 0x55555555,
        4 => 0x40000000,
        5 => 0x33333333,
        6 => 0x2AAAAAAA,
        7 => 0x24924924,
        8 => 0x20000000,
        9 => 0x1C71C71C,
        10 => 0x19999999,
        11 => 0x1745D174,
        12 => 0x15555555,
        13 => 0x13B13B13,
        14 => 0x12492492,
        15 => 0x11111111,
        16 => 0x10000000,
        17 => 0x0F0F0F0F,
        18 => 0x0E38E38E,
        19 => 0x0D79435E,
        20 => 0x0CCCCCCC,
        21 => 0x0C30C30C,
        22 => 0x0BA2E8BA,
        23 => 0x0B21642C,
        24 => 0x0AAAAAAA,
        25 => 0x0A3D70A3,
        26 => 0x09D89D89,
        27 => 0x097B425E,
        28 => 0x09249249,
        29 => 0x08D3DCB0,
        30 => 0x08888888,
        31 => 0x08421084,
        32 => 0x08000000,
        _ => 0,
    }
}

// About p over d, by the halves of p and of the reciprocal: never more, and for d up to 32 at most 3 less.
fn estimate(p: u32, d: crate::Denominator) -> u32
    ensures { result * d.value ≤ p }
{
    let r = reciprocal(d.value);
    let high = p / 0x10000;
    high * (r / 0x10000) + high * (r % 0x10000) / 0x10000 + p % 0x10000 * (r / 0x10000) / 0x10000
}

// p over d. The module's routine takes some seven instructions for each bit of the quotient: so p is multiplied by a small d's
// reciprocal, and only what that leaves is divided, if anything.
//
// Without the hint it is called, and tests again that d is not 0.
#[inline]
fn over(p: u32, divisor: crate::Denominator) -> u32
    ensures { result ≡ p / divisor.value }
{
    let d = divisor.value;
    if d > 32 {
        return p / d;
    }
    let q = estimate(p, divisor);
    let left = p - q * d;
    if left < d { q } else { q + left / d }
}

// −p over d, rounded towards minus infinity.
fn floored_below(p: u32, d: crate::Denominator) -> i32
    requires { p ≤ 2 ^ 31 }
    ensures { result ≡ floor_div (neg_ℤ (pos p)) d.value }
{
    if p == 0 {
        0
    } else {
        -1 - over(p - 1, d) as i32
    }
}

// So many units above the offset, as a count.
fn above(units: u32, numerator: u32, denominator: u32) -> Option<i32>
    ensures { result ≡ narrowed (pos units) numerator (divisor_of denominator) }
{
    if units > 0x7FFFFFFF {
        return None;
    }
    let p = product(units, numerator);
    if p > 0x7FFFFFFF {
        return None;
    }
    Some(over(p, crate::divisor(denominator)) as i32)
}

// So many units below the offset, as a count.
fn below(units: u32, numerator: u32, denominator: u32) -> Option<i32>
    ensures { result ≡ narrowed (neg_ℤ (pos units)) numerator (divisor_of denominator) }
{
    if units > 0x80000000 {
        return None;
    }
    let p = product(units, numerator);
    if p > 0x80000000 {
        return None;
    }
    Some(floored_below(p, crate::divisor(denominator)))
}

// A target within the position limits as a count from home, or too wide.
pub fn geared(s: Settings, target: i32) -> Option<i32>
    ensures { result ≡ narrow_of s target }
{
    let near = biased(crate::within_limits(s, target));
    let offset = biased(s.offset);
    let numerator = crate::capped(s.numerator);
    if offset <= near {
        above(near - offset, numerator, s.denominator)
    } else {
        below(offset - near, numerator, s.denominator)
    }
}
