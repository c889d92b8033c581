// Whole numbers as text, in ASCII: decimal digits under a limit, or with a sign.
#![tactic(auto)]

ghost use Rattle.std.specs.Prelude.{◌^◌, ◌≡◌};
ghost use Rattle.numerals.specs.Limits.{unsigned32_of, length_of};
ghost use Rattle.numerals.specs.Signs.{signed_of, signed_whole};
ghost use Rattle.spelling.specs.Spelling.{Below};

// 1 to 10 decimal digits of a number of 32 bits.
pub fn unsigned32(text: &[u8]) -> Option<u32>
    ensures { result ≡ unsigned32_of text.now }
{
    u32::try_from(spelling::decimal(text)?).ok()
}

// 1 to 10 decimal digits of a number of at most 32.
pub fn length(text: &[u8]) -> Option<u32>
    ensures value { result ≡ length_of text.now }
    ensures below { Below 33 result }
{
    unsigned32(text).filter(|n| *n <= 32)
}

// An optional `-` and 1 to 10 decimal digits.
fn signed(text: &[u8]) -> Option<i64>
    ensures { result ≡ signed_of text.now }
{
    let (first, rest) = text.split_first()?;
    if *first == b'-' {
        Some(-(spelling::decimal(rest)? as i64))
    } else {
        Some(spelling::decimal(text)? as i64)
    }
}

// A signed number of 16 bits.
// Kept: the new form is no plainer. whole16 and whole32 are `signed` at two types; a generic function would say by
// its trait, and not by a power of two, which numbers it takes.
pub fn whole16(text: &[u8]) -> Option<i16>
    ensures { result ≡ signed_whole (2 ^ 15) text.now }
{
    i16::try_from(signed(text)?).ok()
}

// A signed number of 32 bits.
pub fn whole32(text: &[u8]) -> Option<i32>
    ensures { result ≡ signed_whole (2 ^ 31) text.now }
{
    i32::try_from(signed(text)?).ok()
}
