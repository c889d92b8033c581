// Words of a tick that are one of a few: `at`, `still` or `moving`, `set1` or `set2`, and the switches.
#![tactic(auto)]

ghost use Rattle.std.specs.Prelude.{◌≡◌};
ghost use Rattle.cursors.specs.Names.{meaning_of};
ghost use Rattle.cursors.specs.Place.{place_of};
ghost use Rattle.choices.specs.Choices.{at_read, stills, standstill_read, sets, set_read, switches_read};
ghost use Rattle.choices.specs.Switches.{switch_shown, switches_shown};

use cursors::{Cursor, Expected, Trouble};
use legs::events::Switches;
use torque::LimitSet;

// The word `at`.
#[tactic(auto, unfolding(crate::specs::Choices::at_read))]
pub fn at(cursor: &mut Cursor<'_>) -> Result<(), Trouble>
    ensures { (result, place_of cursor.new) ≡ at_read (place_of cursor.old) }
{
    let word = cursor.next();
    word.judge(word.bytes == b"at".as_slice(), Expected::At)
}

fn still(name: &str) -> Option<bool>
    ensures { result ≡ meaning_of name.now stills None }
{
    match name {
        "still" => Some(true),
        "moving" => Some(false),
        _ => None,
    }
}

// Whether the axis stands still.
pub fn standstill(cursor: &mut Cursor<'_>) -> Result<bool, Trouble>
    ensures { (result, place_of cursor.new) ≡ standstill_read (place_of cursor.old) }
{
    let word = cursor.next();
    still(word.name()).ok_or(word.trouble(Expected::Standstill))
}

fn limit_set(name: &str) -> Option<LimitSet>
    ensures { result ≡ meaning_of name.now sets None }
{
    match name {
        "set1" => Some(LimitSet::Set1),
        "set2" => Some(LimitSet::Set2),
        _ => None,
    }
}

pub fn set(cursor: &mut Cursor<'_>) -> Result<LimitSet, Trouble>
    ensures { (result, place_of cursor.new) ≡ set_read (place_of cursor.old) }
{
    let word = cursor.next();
    limit_set(word.name()).ok_or(word.trouble(Expected::Set))
}

// Whether a switch is on, as its byte shows it: its letter, or `-` where it is off.
fn shown(byte: u8, letter: u8) -> Option<bool>
    ensures { result ≡ switch_shown byte letter }
{
    if byte == letter {
        Some(true)
    } else if byte == b'-' {
        Some(false)
    } else {
        None
    }
}

fn four_switches(word: &[u8]) -> Option<Switches>
    ensures { result ≡ switches_shown word.now }
{
    let [positive, negative, home, index] = *word else {
        return None;
    };
    Some(Switches {
        positive: shown(positive, b'P')?,
        negative: shown(negative, b'N')?,
        home: shown(home, b'H')?,
        index: shown(index, b'Z')?,
    })
}

// POT, NOT, HOM and Z, each as its letter or `-`.
#[tactic(auto, unfolding(crate::specs::Choices::switches_read))]
pub fn switches(cursor: &mut Cursor<'_>) -> Result<Switches, Trouble>
    ensures { (result, place_of cursor.new) ≡ switches_read (place_of cursor.old) }
{
    let word = cursor.next();
    four_switches(word.bytes).ok_or(word.trouble(Expected::Switches))
}
