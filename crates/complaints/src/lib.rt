// Answers to a line that cannot be read, on a page that the caller lends. What does not fit on the page is cut off.
#![tactic(auto)]

ghost use Rattle.std.specs.Prelude.{◌≡◌};
ghost use Rattle.complaints.specs.Texts.{expected_text, line_and_column_text, unreadable_text, long_text};
ghost use Rattle.page.specs.Page.{seen, printed};

use cursors::Expected;
use lines::Trouble;
use page::Page;

// The first phrase names the lines of the base alone: the text of its answers never changes.
fn expected(expected: Expected) -> &'static [u8]
    ensures { result.now ≡ expected_text expected }
{
    match expected {
        Expected::Keyword => b" expected word, tick, sheet or fresh\n",
        Expected::Digits => b" expected hexadecimal digits\n",
        Expected::Whole => b" expected a whole number\n",
        Expected::Float => b" expected a float\n",
        Expected::Command => b" expected a command\n",
        Expected::At => b" expected at\n",
        Expected::Switches => b" expected switches\n",
        Expected::Standstill => b" expected still or moving\n",
        Expected::Set => b" expected set1 or set2\n",
        Expected::End => b" expected end of line\n",
    }
}

fn line_and_column(page: &mut Page, line: u64, column: u64)
    ensures { seen page.new ≡ printed (seen page.old) (line_and_column_text line column) }
{
    page.named(b"unreadable ", line);
    page.named(b" ", column);
}

pub fn unreadable(page: &mut Page, line: u64, trouble: Trouble)
    ensures { seen page.new ≡ printed (seen page.old) (unreadable_text line trouble) }
{
    line_and_column(page, line, trouble.column as u64);
    page.text(expected(trouble.expected));
}

#[tactic(auto, using(page::proofs::Printing::printed_then))]
pub fn too_long(page: &mut Page, line: u64)
    ensures { seen page.new ≡ printed (seen page.old) (long_text line) }
{
    line_and_column(page, line, 256);
    page.text(b" line too long\n");
}
