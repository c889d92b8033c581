// What a line that writes settings is answered: the writer, on a buffer that is lent to it.
#![tactic(auto)]

ghost use Rattle.std.specs.Prelude.{◌≡◌};
ghost use Rattle.page.specs.Page.{seen, printed};
ghost use Rattle.lent.specs.Lent.{written_text};

use page::Page;
use sheets::Writing;

// The writer's answer to a line of this name, a space behind it, on a buffer whose words hold DEADBEEF. No line lends more than 32 words.
pub fn write(page: &mut Page, name: &[u8], writing: Writing)
    ensures { seen page.new ≡ printed (seen page.old) (written_text name.now writing) }
{
    let mut words = [0xDEADBEEF; 32];
    let buffer = &mut words[..writing.length.min(32) as usize];
    let verdict = writer::write(writing.layout, writing.settings, buffer);
    printer::buffer(page, name, settings::verdict_number(verdict), buffer);
}
