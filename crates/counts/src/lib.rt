// Encoder counts and other whole numbers of the axis: wrapping difference and sum, pattern, clamp, a bit of a word.
//
// Counts are signed 32-bit and wrap around. Every function answers every value of its arguments.
#![tactic(auto)]

ghost use Rattle.std.specs.Prelude.{◌≡◌, ◌+ℤ◌, ◌-ℤ◌};
ghost use Rattle.counts.specs.Wrap.{modulo, wrapped};
ghost use Rattle.counts.specs.Movement.{movement_of};
ghost use Rattle.counts.specs.Clamp.{clamped};
ghost use Rattle.counts.specs.Bit.{bit_of};

// The sign of a movement.
#[derive(Clone, Copy)]
pub enum Movement {
    Backward,
    Still,
    Forward,
}

// z modulo 2^32, read as signed. The two shifts compile to nothing but a truncation.
// Kept: Rattle's `as` loses no bits, and a mask between two casts says it no plainer.
pub fn wrap(z: i64) -> i32
    ensures { result ≡ wrapped z }
{
    ((z << 32) >> 32) as i32
}

// The 32 bits of a number, which is the number modulo 2^32.
pub fn pattern(number: i32) -> u32
    ensures { result ≡ modulo 32 number }
{
    number.cast_unsigned()
}

// now less before, modulo 2^32 and read as signed.
pub fn difference(now: i32, before: i32) -> i32
    ensures { result ≡ wrapped (now -ℤ before) }
{
    now.wrapping_sub(before)
}

// Which way the count went from before to now.
pub fn moved(now: i32, before: i32) -> Movement
    ensures { result ≡ movement_of (wrapped (now -ℤ before)) }
{
    // Kept: a `match` on `cmp(&0)` compiles to one to three instructions more.
    let way = difference(now, before);
    if way > 0 {
        Movement::Forward
    } else if way < 0 {
        Movement::Backward
    } else {
        Movement::Still
    }
}

// base and count, added modulo 2^32 and read as signed.
pub fn sum(base: i32, count: i32) -> i32
    ensures { result ≡ wrapped (base +ℤ count) }
{
    base.wrapping_add(count)
}

// x, or the bound that it is beyond.
pub fn clamp(x: i32, low: i32, high: i32) -> i32
    ensures { result ≡ clamped x low high }
{
    // Kept: std's `clamp` asks for low ≤ high, which limits need not meet.
    if x < low {
        low
    } else if high < x {
        high
    } else {
        x
    }
}

// Whether the word's bit at a place is set; a place past the word has none.
pub fn bit(word: u16, place: u32) -> bool
    ensures { result ≡ bit_of word place }
{
    place < 16 && (word >> place) % 2 == 1
}
