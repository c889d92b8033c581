// A tick's words: HEX4 COMMAND at I32 SWITCHES STILL SET HEX8.
ghost use Rattle.std.specs.Prelude.{◌≡◌};
ghost use Rattle.cursors.specs.Place.{place_of};
ghost use Rattle.lines.specs.Ticks.{tick_read};

use cursors::{Cursor, Trouble};
use ticks::Tick;

#[tactic(auto, unfolding(crate::specs::Ticks::tick_read))]
pub fn tick(cursor: &mut Cursor<'_>) -> Result<Tick, Trouble>
    ensures { (result, place_of cursor.new) ≡ tick_read (place_of cursor.old) }
{
    let control = scanner::hexadecimal4(cursor)?;
    let command = orders::command(cursor)?;
    choices::at(cursor)?;
    Ok(Tick {
        control,
        command,
        position: scanner::whole32(cursor)?,
        switches: choices::switches(cursor)?,
        still: choices::standstill(cursor)?,
        set: choices::set(cursor)?,
        alarm: scanner::hexadecimal8(cursor)?,
    })
}
