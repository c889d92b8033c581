// Single floats as text, in ASCII: `x` and eight hexadecimal digits, the pattern, or a decimal.
#![tactic(auto)]

ghost use Rattle.std.specs.Prelude.{◌≡◌, from_bits};
ghost use Rattle.std.specs.Float.{binary32};
ghost use Rattle.floats.specs.Literal.{eight_of, quotient_float, without_point, with_point, unsigned_of, spelled_float};

// The float of a bit pattern; a NaN's cannot be made from its bits.
fn of_bits(bits: u32) -> f32
    ensures { result ≡ from_bits binary32 bits }
{
    if (bits % 0x80000000 / 0x800000 == 255) & (bits % 0x800000 != 0) {
        f32::NAN
    } else {
        f32::from_bits(bits)
    }
}

// Eight hexadecimal digits, the pattern.
fn eight(text: &[u8]) -> Option<f32>
    ensures { result ≡ eight_of text.now }
{
    if text.len() != 8 {
        return None;
    }
    spelling::hexadecimal8(text).map(of_bits)
}

// A whole number over a power of ten, each rounded once, and the quotient too.
#[tactic(auto, unfolding(crate::specs::Literal::quotient_float))]
fn quotient(value: u32, power: u32) -> f32
    ensures { result ≡ quotient_float value power }
{
    std::num::nearest_u32_to_f32(value) / std::num::nearest_u32_to_f32(power)
}

// Digits with no point, 1 to 9 of them.
#[tactic(auto, using(crate::proofs::Laws::nine_below))]
fn without_point(text: &[u8]) -> Option<f32>
    ensures { result ≡ without_point text.now }
{
    if 9 < text.len() {
        return None;
    }
    Some(quotient(spelling::decimal(text)? as u32, 1))
}

// Digits on both sides of the point, at most 9 in all.
#[tactic(auto, using(crate::proofs::Laws::nine_below, crate::proofs::Laws::joined_below))]
fn with_point(whole: &[u8], fraction: &[u8]) -> Option<f32>
    ensures { result ≡ with_point whole.now fraction.now }
{
    if 9 < whole.len() + fraction.len() {
        return None;
    }
    let power = 10u32.pow(fraction.len() as u32);
    let n = spelling::decimal(whole)? as u32;
    let m = spelling::decimal(fraction)? as u32;
    Some(quotient(n * power + m, power))
}

// A decimal with no sign, cut at its first point.
#[tactic(auto, unfolding(crate::specs::Literal::unsigned_of))]
fn unsigned(text: &[u8]) -> Option<f32>
    ensures { result ≡ unsigned_of text.now }
{
    match tokens::find(text, b'.') {
        Some(at) => with_point(&text[..at], &text[at + 1..]),
        None => without_point(text),
    }
}

// `x` and a pattern, or an optional `-` and a decimal.
pub fn read(text: &[u8]) -> Option<f32>
    ensures { result ≡ spelled_float text.now }
{
    let (first, rest) = text.split_first()?;
    match *first {
        b'x' => eight(rest),
        b'-' => unsigned(rest).map(|x| -x),
        _ => unsigned(text),
    }
}
