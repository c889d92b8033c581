// A search for a byte in a text.
#![tactic(auto)]

ghost use Rattle.std.specs.Prelude.{◌≡◌};
ghost use Rattle.scan.specs.Bytes.{first_of, place_of, PlaceOf};

// The first place that holds the byte.
fn first(text: &[u8], byte: u8) -> Option<usize>
    ensures { result ≡ first_of byte text.now }
{
    text.iter().position(|b| *b == byte)
}

// The first place from `from` on that holds the byte.
#[tactic(auto, unfolding(crate::specs::Bytes::place_of))]
pub fn find(text: &[u8], from: usize, byte: u8) -> Option<usize>
    ensures value { result ≡ place_of byte from text.now }
    ensures place { PlaceOf byte from text.now result }
{
    let place = first(text.get(from..)?, byte)?;
    Some(from + place)
}
