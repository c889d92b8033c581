// From the words' data back to settings.
ghost use Rattle.std.specs.Prelude.{◌≡◌, ℕ, ◌+◌, ◌*◌, ◌%◌, ◌^◌, true, false, eqb, [], ◌∷◌, ◌++◌};
ghost use Rattle.counts.specs.Wrap.{signed};
ghost use Rattle.words.specs.Decode.{layout_of, option_from, homing_from, settings_from, settings_of};

use settings::Settings;

// The low 28 bits, read as signed. Of the two shifts, the one down keeps the sign.
fn short_position(low: u32) -> i32
    ensures { result ≡ signed 28 (low % 2 ^ 28) }
{
    (low << 4).cast_signed() >> 4
}

// A position from the low 28 bits and the four above them.
fn long_position(low: u32, top: u32) -> i32
    ensures { result ≡ signed 32 ((low + top * 2 ^ 28) % 2 ^ 32) }
{
    low.wrapping_add(top << 28).cast_signed()
}

// The option that the values carry.
fn option(values: [u32; 14]) -> u32
    ensures { result ≡ option_from values }
{
    if layouts::carries_homing_torque(values[0]) {
        values[12] % 0x100
    } else {
        values[12]
    }
}

// The homing torque that they carry; older layouts read as the maximum.
fn homing(values: [u32; 14]) -> u32
    ensures { result ≡ homing_from values }
{
    if layouts::carries_homing_torque(values[0]) {
        values[12] / 0x100 % 0x1000
    } else {
        values[9]
    }
}

// The settings that the values carry, but for those that layouts carry in their own ways, which are given.
// Kept one by one: theorems above speak of such settings by the definition `settings_from`, which takes them so.
pub fn decode_with(
    offset: i32,
    lower: i32,
    upper: i32,
    option: u32,
    homing: u32,
    values: [u32; 14],
) -> Settings
    ensures { result ≡ settings_from offset lower upper option homing values }
{
    Settings {
        method: values[1],
        fast: values[2],
        slow: values[3],
        offset,
        numerator: values[5],
        denominator: values[6],
        lower,
        upper,
        maximum: values[9],
        positive1: values[10] % 0x4000,
        negative1: values[10] / 0x4000,
        positive2: values[11] % 0x4000,
        negative2: values[11] / 0x4000,
        option,
        rated: values[13],
        homing,
    }
}

// The settings that values of layout 1 carry, whatever stands for kind 14.
fn decode_short(values: [u32; 14]) -> Settings
    requires { eqb (layout_of values) 1 ≡ true }
    ensures { (tops : ℕ) → result ≡ settings_of (values ++ tops ∷ []) }
{
    let offset = short_position(values[4]);
    let lower = short_position(values[7]);
    let upper = short_position(values[8]);
    decode_with(offset, lower, upper, option(values), homing(values), values)
}

// Those of the other layouts.
fn decode_long(values: [u32; 14], tops: u32) -> Settings
    requires { eqb (layout_of values) 1 ≡ false }
    ensures { result ≡ settings_of (values ++ tops ∷ []) }
{
    let offset = long_position(values[4], tops % 0x10);
    let lower = long_position(values[7], tops / 0x10 % 0x10);
    let upper = long_position(values[8], tops / 0x100 % 0x10);
    decode_with(offset, lower, upper, option(values), homing(values), values)
}

// The settings that the values of kinds 0 to 13 carry, and kind 14's.
pub fn decode(values: [u32; 14], tops: u32) -> Settings
    ensures { result ≡ settings_of (values ++ tops ∷ []) }
{
    if values[0] == 1 {
        decode_short(values)
    } else {
        decode_long(values, tops)
    }
}
