// What digits spell, in ASCII.
#![tactic(auto)]

ghost use Rattle.std.specs.Prelude.{◌<◌, ◌≤◌, ◌^◌, ◌≡◌, length};
ghost use Rattle.spelling.specs.Spelling.{spelled_of, decimal_of, Below};

// What 1 to `most` digits spell.
fn spelled(text: &[u8], base: u32, most: usize) -> Option<u64>
    requires base_lower_bound { 2 ≤ base }
    requires base_bound { base ≤ 16 }
    requires most_bound { most ≤ 10 }
    ensures value { result ≡ spelled_of base most text.now }
    ensures below { Below (base ^ most) result }
{
    if text.is_empty() || most < text.len() {
        return None;
    }
    let mut value: u64 = 0;
    for byte in text {
        let digit = (*byte as char).to_digit(base)?;
        value = value * base as u64 + digit as u64;
    }
    Some(value)
}

// 1 to 4 hexadecimal digits.
// Kept: the new form is no plainer. hexadecimal4 and hexadecimal8 are `spelled` at two counts of digits; a generic
// function would have to say of its type how many digits that holds.
pub fn hexadecimal4(text: &[u8]) -> Option<u16>
    ensures { result ≡ spelled_of 16 4 text.now }
{
    Some(spelled(text, 16, 4)? as u16)
}

// 1 to 8 hexadecimal digits.
pub fn hexadecimal8(text: &[u8]) -> Option<u32>
    ensures { result ≡ spelled_of 16 8 text.now }
{
    Some(spelled(text, 16, 8)? as u32)
}

// 1 to 10 decimal digits.
pub fn decimal(text: &[u8]) -> Option<u64>
    ensures value { result ≡ decimal_of text.now }
    ensures below { Below (10 ^ 10) result }
    ensures digits { Below (10 ^ length text.now) result }
{
    spelled(text, 10, 10)
}
