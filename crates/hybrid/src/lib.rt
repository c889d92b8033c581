// The hybrid command (01: "Hybrid"): seven single floats and the rated torque give a torque demand.
//
// Every function answers every value of its arguments, NaNs and infinities too. Nothing is flushed to zero.
#![tactic(auto)]

ghost use Rattle.std.specs.Prelude.{◌≡◌, ◌-◌, ◌^◌, ◌≤◌, min, true, pos, neg_ℤ, if◌then◌else◌, from_bits};
ghost use Rattle.std.specs.Float.{binary32};
ghost use Rattle.counts.specs.Clamp.{clamped};
ghost use Rattle.hybrid.specs.Hybrid.{quotient_of, finite, size_of, whole_part, saturated};

// Gains, targets, feed-forward torque, and the actual position and speed: radians, radians a second, newton metres.
#[derive(Clone, Copy)]
pub struct Hybrid {
    // Stiffness and damping (01: KP, KD).
    pub kp: f32,
    pub kd: f32,
    // Target position and speed.
    pub pd: f32,
    pub vd: f32,
    // Torque added to what the two gains give (01: T).
    pub t: f32,
    // Actual position and speed.
    pub p: f32,
    pub v: f32,
}

// The demand before it is made whole (01: q), in thousandths of the rated torque, which is in millinewton metres.
#[tactic(auto, using(crate::proofs::Floats::million), unfolding(crate::specs::Hybrid::quotient_of))]
pub fn quotient(h: Hybrid, rated: u32) -> f32
    ensures { result ≡ quotient_of h rated }
{
    let divisor = std::num::nearest_u32_to_f32(rated);
    ((h.kp * (h.pd - h.p) + h.kd * (h.vd - h.v)) + h.t) * 1000000.0 / divisor
}

// Whether q is neither a NaN nor an infinity. The library has no such test for an f32.
pub fn is_finite(q: f32) -> bool
    ensures { result ≡ finite q }
{
    let limit = f32::from_bits(0x7f80_0000);
    q < limit && -limit < q
}

// The whole part of a finite float's size, at most 2^31: its digits, shifted by its exponent. Below 1 it is 0.
#[tactic(auto, using(crate::proofs::Pattern::bits_low, crate::proofs::Pattern::bits_middle, crate::proofs::Pattern::bits_high))]
fn size(bits: u32) -> u32
    requires { finite (from_bits binary32 bits) ≡ true }
    ensures { result ≡ min (size_of (from_bits binary32 bits)) (2 ^ 31) }
{
    let exponent = bits % 0x80000000 / 0x800000;
    let digits = bits % 0x800000 + 0x800000;
    if exponent < 127 {
        0
    } else if exponent < 158 {
        (digits * 128) >> (157 - exponent)
    } else {
        0x80000000
    }
}

// n with a sign, and the largest i32 where n is beyond it.
fn signed(negative: bool, n: u32) -> i32
    requires { n ≤ 2 ^ 31 }
    ensures { result ≡ (if negative then neg_ℤ (pos n) else pos (min n (2 ^ 31 - 1))) }
{
    if negative {
        (-(n as i64)) as i32
    } else {
        n.min(0x7FFFFFFF) as i32
    }
}

// q's whole part, and the nearer end of the i32 range where it is beyond it.
// Kept: tried for a Cortex-M0, the library's saturating cast is three calls of float routines; this is none, but for the test.
fn whole(q: f32) -> i32
    ensures { result ≡ saturated (whole_part q) }
{
    if is_finite(q) {
        let bits = q.to_bits();
        signed(bits >= 0x80000000, size(bits))
    } else {
        0
    }
}

// q's whole part, towards zero, clamped between low and high; of a q that is not finite, 0 clamped.
pub fn demand(q: f32, low: i32, high: i32) -> i32
    ensures { result ≡ clamped (whole_part q) low high }
{
    counts::clamp(whole(q), low, high)
}
