// The next word of a line, read as a number or a float.
// Kept: a function for each kind, since each is the word, what spells it and what was expected; a generic one would be told the same three.
#![tactic(auto)]

ghost use Rattle.std.specs.Prelude.{◌<◌, ◌≡◌, IfOk};
ghost use Rattle.cursors.specs.Place.{place_of};
ghost use Rattle.scanner.specs.Readings.{hexadecimal_read, unsigned_read, length_read, whole16_read, whole32_read, float_read};

use cursors::{Cursor, Expected, Trouble};

// HEX4.
#[tactic(auto, unfolding(crate::specs::Readings::hexadecimal_read))]
pub fn hexadecimal4(cursor: &mut Cursor<'_>) -> Result<u16, Trouble>
    ensures { (result, place_of cursor.new) ≡ hexadecimal_read 4 (place_of cursor.old) }
{
    let word = cursor.next();
    spelling::hexadecimal4(word.bytes).ok_or(word.trouble(Expected::Digits))
}

// HEX8.
#[tactic(auto, unfolding(crate::specs::Readings::hexadecimal_read))]
pub fn hexadecimal8(cursor: &mut Cursor<'_>) -> Result<u32, Trouble>
    ensures { (result, place_of cursor.new) ≡ hexadecimal_read 8 (place_of cursor.old) }
{
    let word = cursor.next();
    spelling::hexadecimal8(word.bytes).ok_or(word.trouble(Expected::Digits))
}

// 1 to 10 decimal digits with no sign, below 2^32.
#[tactic(auto, unfolding(crate::specs::Readings::unsigned_read))]
pub fn unsigned(cursor: &mut Cursor<'_>) -> Result<u32, Trouble>
    ensures { (result, place_of cursor.new) ≡ unsigned_read (place_of cursor.old) }
{
    let word = cursor.next();
    numerals::unsigned32(word.bytes).ok_or(word.trouble(Expected::Whole))
}

// LENGTH, of a buffer that is lent.
#[tactic(auto, unfolding(crate::specs::Readings::length_read))]
pub fn length(cursor: &mut Cursor<'_>) -> Result<u32, Trouble>
    ensures value { (result, place_of cursor.new) ≡ length_read (place_of cursor.old) }
    ensures below { IfOk result (λ n. n < 33) }
{
    let word = cursor.next();
    numerals::length(word.bytes).ok_or(word.trouble(Expected::Whole))
}

// I16.
#[tactic(auto, unfolding(crate::specs::Readings::whole_read))]
pub fn whole16(cursor: &mut Cursor<'_>) -> Result<i16, Trouble>
    ensures { (result, place_of cursor.new) ≡ whole16_read (place_of cursor.old) }
{
    let word = cursor.next();
    numerals::whole16(word.bytes).ok_or(word.trouble(Expected::Whole))
}

// I32.
#[tactic(auto, unfolding(crate::specs::Readings::whole_read))]
pub fn whole32(cursor: &mut Cursor<'_>) -> Result<i32, Trouble>
    ensures { (result, place_of cursor.new) ≡ whole32_read (place_of cursor.old) }
{
    let word = cursor.next();
    numerals::whole32(word.bytes).ok_or(word.trouble(Expected::Whole))
}

#[tactic(auto, unfolding(crate::specs::Readings::float_read))]
pub fn float(cursor: &mut Cursor<'_>) -> Result<f32, Trouble>
    ensures { (result, place_of cursor.new) ≡ float_read (place_of cursor.old) }
{
    let word = cursor.next();
    floats::read(word.bytes).ok_or(word.trouble(Expected::Float))
}
