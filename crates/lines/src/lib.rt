// What a line of the program says.
#![tactic(auto)]

mod rail_line;
mod run_line;
mod tick_line;

ghost use Rattle.std.specs.Prelude.{◌≡◌};
ghost use Rattle.cursors.specs.Names.{meaning_of};
ghost use Rattle.cursors.specs.Place.{place_of};
ghost use Rattle.cursors.specs.Reading.{refused};
ghost use Rattle.lines.specs.Lines.{openings, opened_read, content_read, content_of, line_of};
ghost use Rattle.lines.specs.Trouble.{column_told};

use carriage::Rail;
use cursors::Cursor;
pub use cursors::Expected;
use settings::Settings;
use sheets::Writing;
use ticks::Tick;

// A run, on the rail and under the settings that were told before: the start cell, and the ticks that it is given.
#[derive(Clone, Copy)]
pub struct Trial {
    pub start: i32,
    pub ticks: u32,
}

// Where a line cannot be read further: the column of the first word that is not accepted, from 1, and what was expected there.
#[derive(Clone, Copy)]
pub struct Trouble {
    pub column: usize,
    pub expected: Expected,
}

impl From<cursors::Trouble> for Trouble {
    ghost from_gives = { λ refused told. told ≡ column_told refused };

    // A line has at most 255 bytes, so that the column past it is 256.
    fn from(refused: cursors::Trouble) -> Trouble {
        Trouble {
            column: refused.at.min(255) + 1,
            expected: refused.expected,
        }
    }
}

// Kept: Blank and Unreadable are lines, and no Option or Result round the others: each is counted, and `text_of` says what each is answered.
#[derive(Clone, Copy)]
pub enum Line {
    Blank,
    Fresh,
    Word(u32),
    Tick(Tick),
    Sheet(Writing),
    Layout(Writing),
    Settings(Settings),
    Rail(Rail),
    Run(Trial),
    Picture(Trial),
    Unreadable(Trouble),
}

// A line by the name that opens it, with what comes after it.
fn named(
    name: &str,
    unknown: cursors::Trouble,
    cursor: &mut Cursor<'_>,
) -> Result<Line, cursors::Trouble>
    ensures { (result, place_of cursor.new) ≡ meaning_of name.now openings (refused unknown) (place_of cursor.old) }
{
    match name {
        "word" => Ok(Line::Word(scanner::hexadecimal8(cursor)?)),
        "tick" => Ok(Line::Tick(tick_line::tick(cursor)?)),
        "sheet" => Ok(Line::Sheet(sheets::sheet(cursor)?)),
        "layout" => Ok(Line::Layout(sheets::layout(cursor)?)),
        "fresh" => Ok(Line::Fresh),
        "settings" => Ok(Line::Settings(sheets::settings(cursor)?)),
        "rail" => Ok(Line::Rail(rail_line::rail(cursor)?)),
        "run" => Ok(Line::Run(run_line::trial(cursor)?)),
        "picture" => Ok(Line::Picture(run_line::trial(cursor)?)),
        _ => Err(unknown),
    }
}

fn opened(cursor: &mut Cursor<'_>) -> Result<Line, cursors::Trouble>
    ensures { (result, place_of cursor.new) ≡ opened_read (place_of cursor.old) }
{
    let word = cursor.next();
    named(word.name(), word.trouble(Expected::Keyword), cursor)
}

// A line that has a word, to its end.
#[tactic(auto, unfolding(crate::specs::Lines::content_read))]
fn content(cursor: &mut Cursor<'_>) -> Result<Line, cursors::Trouble>
    ensures { (result, place_of cursor.new) ≡ content_read (place_of cursor.old) }
{
    let line = opened(cursor)?;
    cursor.end()?;
    Ok(line)
}

// A text, its comment left out.
#[tactic(auto, unfolding(crate::specs::Lines::content_of))]
fn text(text: &[u8]) -> Line
    ensures { result ≡ content_of text.now }
{
    let mut cursor = Cursor::new(text);
    if cursor.at_end() {
        return Line::Blank;
    }
    match content(&mut cursor) {
        Ok(line) => line,
        Err(refused) => Line::Unreadable(refused.into()),
    }
}

// A line, without its end.
#[tactic(auto, unfolding(crate::specs::Lines::line_of))]
pub fn read(line: &[u8]) -> Line
    ensures { result ≡ line_of line.now }
{
    let end = tokens::find(line, b'#').unwrap_or(line.len());
    text(&line[..end])
}
