// What data each kind of settings word may carry in a layout.
#![tactic(auto)]

ghost use Rattle.std.specs.Prelude.{◌≡◌};
ghost use Rattle.kinds.specs.Fields.{torque_limits_ok, option_data_ok, field_ok};

fn torque_limits_ok(value: u32) -> bool
    ensures { result ≡ torque_limits_ok value }
{
    ranges::torque_ok(value % 0x4000) & ranges::torque_ok(value / 0x4000)
}

// The option, and in layout 3 above its 8 bits the homing torque. The highest bits are zero where that is at most 3000.
fn option_data_ok(layout: u32, value: u32) -> bool
    ensures { result ≡ option_data_ok layout value }
{
    if layouts::carries_homing_torque(layout) {
        ranges::option_ok(value % 0x100) & ranges::torque_ok(value / 0x100)
    } else {
        ranges::option_ok(value)
    }
}

// A start word's data, kind 0, is the layout itself; `axis` asks for that before a layout is known.
// Kept: a kind is a number, since the top four bits of a word are any of sixteen, and each is answered. An arm for each, also where two say the same:
// arms of several kinds, which were tried, leave the table of jumps, and a word of theirs takes half as long again.
#[tactic(auto, unfolding(crate::specs::Fields::field_ok))]
pub fn field_ok(layout: u32, kind: u32, value: u32) -> bool
    ensures { result ≡ field_ok layout kind value }
{
    match kind {
        0 => layouts::is_layout(value),
        1 => ranges::method_ok(value),
        2 => ranges::speed_ok(value),
        3 => ranges::speed_ok(value),
        4 => true,
        5 => ranges::ratio_ok(value),
        6 => ranges::ratio_ok(value),
        7 => true,
        8 => true,
        9 => ranges::torque_ok(value),
        10 => torque_limits_ok(value),
        11 => torque_limits_ok(value),
        12 => option_data_ok(layout, value),
        13 => ranges::rated_ok(value),
        14 => value < 0x1000,
        _ => false,
    }
}
