// A 32-bit word read as a signed number; back again: `counts::pattern`. Words of switches, states and modes are read by From, beside those types.
#![tactic(auto)]

ghost use Rattle.std.specs.Prelude.{◌≡◌, pos};
ghost use Rattle.counts.specs.Wrap.{wrapped};

// A word read as signed.
pub fn signed(word: u32) -> i32
    ensures { result ≡ wrapped (pos word) }
{
    word.cast_signed()
}
