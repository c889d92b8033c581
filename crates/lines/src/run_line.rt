// A run's words: START TICKS.
ghost use Rattle.std.specs.Prelude.{◌≡◌};
ghost use Rattle.cursors.specs.Place.{place_of};
ghost use Rattle.lines.specs.Runs.{trial_read};

use crate::Trial;
use cursors::{Cursor, Trouble};
use scanner::{unsigned, whole32};

#[tactic(auto, unfolding(crate::specs::Runs::trial_read))]
pub fn trial(cursor: &mut Cursor<'_>) -> Result<Trial, Trouble>
    ensures { (result, place_of cursor.new) ≡ trial_read (place_of cursor.old) }
{
    Ok(Trial {
        start: whole32(cursor)?,
        ticks: unsigned(cursor)?,
    })
}
