// Writing settings as words into a lent buffer.
#![tactic(auto)]

ghost use Rattle.std.specs.Prelude.{◌≡◌, ◌+◌, ◌≤◌, ◌<◌, true, ◌++◌, length, take, drop};
ghost use Rattle.ranges.specs.Range.{torque_ok};
ghost use Rattle.settings.specs.Ranges.{in_range};
ghost use Rattle.words.specs.Encode.{limit_set, low_of, top_of, tops_of, option_data, values_of, below, checksum_of, words_from, sealed};
ghost use Rattle.writer.specs.Write.{write_verdict, written};

use settings::{Refusal, Settings};
use words::KIND;

// The low 28 bits of a position.
fn low(position: i32) -> u32
    ensures { result ≡ low_of position }
{
    counts::pattern(position) % KIND
}

// The bits above those, which layout 1 does not have.
fn top(layout: u32, position: i32) -> u32
    ensures { result ≡ top_of layout position }
{
    if layout == 1 {
        0
    } else {
        counts::pattern(position) / KIND
    }
}

// These bits of offset and position limits in one word's data.
fn tops(layout: u32, s: Settings) -> u32
    ensures { result ≡ tops_of layout s }
{
    let offset = top(layout, s.offset);
    let lower = top(layout, s.lower);
    let upper = top(layout, s.upper);
    offset + lower * 0x10 + upper * 0x100
}

// A limit set in one word's data.
fn limit_pair(positive: u32, negative: u32) -> u32
    requires { (torque_ok positive ≡ true) × (torque_ok negative ≡ true) }
    ensures { result ≡ limit_set positive negative }
{
    negative * 0x4000 + positive
}

// The option, with the homing torque above its 8 bits where the layout carries that.
fn option_data(layout: u32, s: Settings) -> u32
    requires { in_range s ≡ true }
    ensures { result ≡ option_data layout s }
{
    if layouts::carries_homing_torque(layout) {
        s.homing * 0x100 + s.option
    } else {
        s.option
    }
}

// The data of kinds 0 to 14.
fn values(layout: u32, s: Settings) -> [u32; 15]
    requires { in_range s ≡ true }
    ensures { result ≡ values_of layout s }
{
    let offset = low(s.offset);
    let lower = low(s.lower);
    let upper = low(s.upper);
    let set1 = limit_pair(s.positive1, s.negative1);
    let set2 = limit_pair(s.positive2, s.negative2);
    let option = option_data(layout, s);
    let tops = tops(layout, s);
    [
        layout,
        s.method,
        s.fast,
        s.slow,
        offset,
        s.numerator,
        s.denominator,
        lower,
        upper,
        s.maximum,
        set1,
        set2,
        option,
        s.rated,
        tops,
    ]
}

// Writes settings as the words of a layout to the front of the buffer.
pub fn write(layout: u32, s: Settings, buffer: &mut [u32]) -> Result<(), Refusal>
    ensures verdict { result ≡ write_verdict layout s buffer.old }
    ensures words { buffer.new ≡ written layout s buffer.old }
{
    if !layouts::is_layout(layout) {
        return Err(Refusal::UnknownLayout);
    }
    let size = layouts::size(layout) as usize;
    if buffer.len() <= size {
        return Err(Refusal::BufferTooShort);
    }
    if layouts::is_long(layout, s) {
        return Err(Refusal::LongValue);
    }
    if layouts::loses_homing_torque(layout, s) {
        return Err(Refusal::HomingTorqueLost);
    }
    checks::check(s)?;
    let data = values(layout, s);
    fill(size, data, buffer);
    Ok(())
}

// The words of kinds 0 to 13, which every layout has. Returns the sum of their data.
fn first_words(values: [u32; 15], buffer: &mut [u32]) -> u32
    requires { (14 ≤ length buffer.old) × below values }
    ensures value { result ≡ checksum_of (take 14 values) }
    ensures buffer_after { buffer.new ≡ words_from 0 (take 14 values) ++ drop 14 buffer.old }
{
    let mut sum: u32 = 0;
    // Kept: `i` is the word's place and its kind; an `enumerate` over the values names the two no plainer, and stores at `i` all the same.
    for i in 0..14 {
        let x = values[i];
        buffer[i] = (i as u32) * KIND + x;
        sum = (sum + x) % KIND;
    }
    sum
}

// So many values as words of rising kinds, and the end word with their sum.
fn fill(size: usize, values: [u32; 15], buffer: &mut [u32])
    requires { (14 ≤ size) × (size ≤ 15) × (size < length buffer.old) × below values }
    ensures { buffer.new ≡ sealed (take size values) ++ drop (size + 1) buffer.old }
{
    let sum = first_words(values, buffer);
    if size == 15 {
        let x = values[14];
        buffer[14] = 0xE0000000 + x;
        buffer[15] = 0xF0000000 + (sum + x) % KIND;
    } else {
        buffer[14] = 0xF0000000 + sum;
    }
}
