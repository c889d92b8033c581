// Reading settings words: which kind is due, and what an end word meets.
#![tactic(auto)]

ghost use Rattle.std.specs.Prelude.{◌≡◌};
ghost use Rattle.reader.specs.Read.{due_after, close_verdict};

use settings::{Refusal, Settings};

// The kind of word that is due after so many of a layout.
pub fn due_kind(layout: u32, count: u32) -> u32
    ensures { result ≡ due_after layout count }
{
    if count < layouts::size(layout) {
        count
    } else {
        15
    }
}

// What an end word meets that closes these settings, by their sum and its own: tests 4, 5 and 6.
pub fn close(s: Settings, sum: u32, given: u32) -> Result<(), Refusal>
    ensures { result ≡ close_verdict s sum given }
{
    if given != sum {
        return Err(Refusal::ChecksumMismatch);
    }
    checks::check_limits(s)
}
