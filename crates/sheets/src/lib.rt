// The words after `settings`: METHOD FAST SLOW OFFSET NUM DEN LOWER UPPER MAX P1 N1 P2 N2 OPTION RATED [HOMING]. After `sheet` LENGTH comes first, and
// there is no HOMING; after `layout` LAYOUT and LENGTH come first.
#![tactic(auto)]

ghost use Rattle.std.specs.Prelude.{◌≡◌, true};
ghost use Rattle.cursors.specs.Place.{place_of};
ghost use Rattle.sheets.specs.Sheets.{sheet_words_read, homing_torque_read, settings_read, fields_read, sheet_read, layout_read};

use cursors::{Cursor, Trouble};
use scanner::{unsigned, whole32};
use settings::Settings;

// Settings to be written in a layout, known or not, to a buffer of `length` words.
#[derive(Clone, Copy)]
pub struct Writing {
    pub layout: u32,
    pub length: u32,
    pub settings: Settings,
}

// METHOD .. RATED; the homing torque is MAX.
#[tactic(auto, unfolding(crate::specs::Sheets::sheet_words_read))]
fn sheet_words(cursor: &mut Cursor<'_>) -> Result<Settings, Trouble>
    ensures { (result, place_of cursor.new) ≡ sheet_words_read (place_of cursor.old) }
{
    let method = unsigned(cursor)?;
    let fast = unsigned(cursor)?;
    let slow = unsigned(cursor)?;
    let offset = whole32(cursor)?;
    let numerator = unsigned(cursor)?;
    let denominator = unsigned(cursor)?;
    let lower = whole32(cursor)?;
    let upper = whole32(cursor)?;
    let maximum = unsigned(cursor)?;
    Ok(Settings {
        method,
        fast,
        slow,
        offset,
        numerator,
        denominator,
        lower,
        upper,
        maximum,
        positive1: unsigned(cursor)?,
        negative1: unsigned(cursor)?,
        positive2: unsigned(cursor)?,
        negative2: unsigned(cursor)?,
        option: unsigned(cursor)?,
        rated: unsigned(cursor)?,
        homing: maximum,
    })
}

// HOMING, on a line that is allowed it; where it is left out it is MAX.
#[tactic(auto, unfolding(crate::specs::Sheets::homing_torque_read))]
fn homing_torque(allowed: bool, maximum: u32, cursor: &mut Cursor<'_>) -> Result<u32, Trouble>
    ensures { (result, place_of cursor.new) ≡ homing_torque_read allowed maximum (place_of cursor.old) }
{
    if allowed && !cursor.at_end() {
        unsigned(cursor)
    } else {
        Ok(maximum)
    }
}

// METHOD .. RATED, and HOMING on a line that is allowed it.
#[tactic(auto, unfolding(crate::specs::Sheets::settings_read))]
fn settings_words(allowed: bool, cursor: &mut Cursor<'_>) -> Result<Settings, Trouble>
    ensures { (result, place_of cursor.new) ≡ settings_read allowed (place_of cursor.old) }
{
    let sheet = sheet_words(cursor)?;
    let homing = homing_torque(allowed, sheet.maximum, cursor)?;
    Ok(Settings { homing, ..sheet })
}

// LENGTH, and the settings.
#[tactic(auto, unfolding(crate::specs::Sheets::fields_read))]
fn fields(allowed: bool, layout: u32, cursor: &mut Cursor<'_>) -> Result<Writing, Trouble>
    ensures { (result, place_of cursor.new) ≡ fields_read allowed layout (place_of cursor.old) }
{
    Ok(Writing {
        layout,
        length: scanner::length(cursor)?,
        settings: settings_words(allowed, cursor)?,
    })
}

// The settings of later runs; HOMING may come last.
pub fn settings(cursor: &mut Cursor<'_>) -> Result<Settings, Trouble>
    ensures { (result, place_of cursor.new) ≡ settings_read true (place_of cursor.old) }
{
    settings_words(true, cursor)
}

// A sheet line writes layout 1, and has no HOMING.
pub fn sheet(cursor: &mut Cursor<'_>) -> Result<Writing, Trouble>
    ensures { (result, place_of cursor.new) ≡ sheet_read (place_of cursor.old) }
{
    fields(false, 1, cursor)
}

// LAYOUT, what a sheet line has, and HOMING, or none.
pub fn layout(cursor: &mut Cursor<'_>) -> Result<Writing, Trouble>
    ensures { (result, place_of cursor.new) ≡ layout_read (place_of cursor.old) }
{
    let layout = unsigned(cursor)?;
    fields(true, layout, cursor)
}
