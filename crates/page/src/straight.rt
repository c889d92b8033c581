// A text straight onto the caller's bytes.
ghost use Rattle.page.specs.Page.{Printed};

use crate::Page;

// How many bytes it fills is answered; those behind it stay as they are.
pub fn print(out: &mut [u8], text: &[u8]) -> usize
    ensures { Printed out.old 0 text.now out.new result }
{
    let mut page = Page::new(out);
    page.text(text);
    page.end
}
