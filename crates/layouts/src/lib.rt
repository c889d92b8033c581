// The layouts of settings words (02, (iv) and (v)): which there are, how many words each has, and which settings it holds.
#![tactic(auto)]

ghost use Rattle.std.specs.Prelude.{◌≡◌};
ghost use Rattle.counts.specs.Fits.{fits};
ghost use Rattle.layouts.specs.Layout.{is_layout, size, carries_homing_torque, long_value, homing_torque_lost};

use settings::Settings;

// Whether this is a layout.
// Kept: it is a number, since a start word carries any number, and one that is no layout is answered too (refusal 2).
#[tactic(auto, using(counts::proofs::Between::within, counts::proofs::Between::under, counts::proofs::Between::over))]
pub fn is_layout(layout: u32) -> bool
    ensures { result ≡ is_layout layout }
{
    matches!(layout, 1..=3)
}

// How many words come before the end word, one of each kind from 0 on.
pub fn size(layout: u32) -> u32
    ensures { result ≡ size layout }
{
    if layout == 1 { 14 } else { 15 }
}

// Whether the layout carries a homing torque.
pub fn carries_homing_torque(layout: u32) -> bool
    ensures { result ≡ carries_homing_torque layout }
{
    layout == 3
}

fn fits_28_bits(position: i32) -> bool
    ensures { result ≡ fits 28 position }
{
    // Kept: a range pattern was tried, and its proof did not close.
    (position < 0x8000000) & (-0x8000000 <= position)
}

// Whether the offset or a position limit needs more bits than layout 1 has, where that is asked (refusal 10).
pub fn is_long(layout: u32, s: Settings) -> bool
    ensures { result ≡ long_value layout s }
{
    (layout == 1) & !(fits_28_bits(s.offset) & fits_28_bits(s.lower) & fits_28_bits(s.upper))
}

// Whether the homing torque is neither carried nor the maximum, as which older layouts read (refusal 11).
pub fn loses_homing_torque(layout: u32, s: Settings) -> bool
    ensures { result ≡ homing_torque_lost layout s }
{
    !carries_homing_torque(layout) & (s.homing != s.maximum)
}
