// A tick's command: `hybrid` and seven floats, `homing`, `position`, `torque` or `rest`.
#![tactic(auto)]

ghost use Rattle.std.specs.Prelude.{◌≡◌};
ghost use Rattle.cursors.specs.Names.{meaning_of};
ghost use Rattle.cursors.specs.Place.{place_of};
ghost use Rattle.cursors.specs.Reading.{refused};
ghost use Rattle.orders.specs.Orders.{hybrid_read, commands, command_read};

use commands::Command;
use cursors::{Cursor, Expected, Trouble};
use hybrid::Hybrid;
use scanner::{float, whole16, whole32};

// KP KD PD VD T P V.
#[tactic(auto, unfolding(crate::specs::Orders::hybrid_read))]
fn floats(cursor: &mut Cursor<'_>) -> Result<Hybrid, Trouble>
    ensures { (result, place_of cursor.new) ≡ hybrid_read (place_of cursor.old) }
{
    Ok(Hybrid {
        kp: float(cursor)?,
        kd: float(cursor)?,
        pd: float(cursor)?,
        vd: float(cursor)?,
        t: float(cursor)?,
        p: float(cursor)?,
        v: float(cursor)?,
    })
}

// A command by its name, with what comes after it.
fn named(name: &str, unknown: Trouble, cursor: &mut Cursor<'_>) -> Result<Command, Trouble>
    ensures { (result, place_of cursor.new) ≡ meaning_of name.now commands (refused unknown) (place_of cursor.old) }
{
    match name {
        "hybrid" => Ok(Command::Hybrid(floats(cursor)?)),
        "homing" => Ok(Command::Homing(whole16(cursor)?)),
        "position" => Ok(Command::Position(whole32(cursor)?, whole16(cursor)?)),
        "torque" => Ok(Command::Torque(whole16(cursor)?)),
        "rest" => Ok(Command::Rest),
        _ => Err(unknown),
    }
}

pub fn command(cursor: &mut Cursor<'_>) -> Result<Command, Trouble>
    ensures { (result, place_of cursor.new) ≡ command_read (place_of cursor.old) }
{
    let word = cursor.next();
    named(word.name(), word.trouble(Expected::Command), cursor)
}
