// A rail's words: CELLS CAM WIDTH FAST SLOW.
ghost use Rattle.std.specs.Prelude.{◌≡◌};
ghost use Rattle.cursors.specs.Place.{place_of};
ghost use Rattle.lines.specs.Rails.{rail_read};

use carriage::Rail;
use cursors::{Cursor, Trouble};
use scanner::unsigned;

#[tactic(auto, unfolding(crate::specs::Rails::rail_read))]
pub fn rail(cursor: &mut Cursor<'_>) -> Result<Rail, Trouble>
    ensures { (result, place_of cursor.new) ≡ rail_read (place_of cursor.old) }
{
    Ok(Rail {
        length: unsigned(cursor)?,
        cam: unsigned(cursor)?,
        width: unsigned(cursor)?,
        fast: unsigned(cursor)?,
        slow: unsigned(cursor)?,
    })
}
