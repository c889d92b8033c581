// A run on a paper rail, drawn as text (docs/LINES.md, "A picture"), on a page.
//
// Kept: a page and a rail as two arguments. In one struct they would be no plainer: the page is borrowed, and each function would have to promise
// besides that the rail in the struct stays as it is.
#![tactic(auto)]

ghost use Rattle.std.specs.Prelude.{List, ◌≤◌, ◌≡◌, ℤ};
ghost use Rattle.page.specs.Page.{seen, printed};
ghost use Rattle.drawing.specs.Strip.{columns, column_of, spans, glyph_at, strip_text};
ghost use Rattle.drawing.specs.Picture.{cam, rail_row, point_row, leg_mark, leg_text, leg_row, leg_rows, ended_at, last_cell, legs_of, end_row, picture_text};

use carriage::Rail;
use page::Page;
use simulator::{LegRun, Stop, Trace};

// What stands in column 0, in the last column, and in those between, where no mark stands.
#[derive(Clone, Copy)]
struct Frame {
    left: u8,
    right: u8,
    between: u8,
}

// The body stands in each column between `from` and `to`, in either order; the head in `to`.
#[derive(Clone, Copy)]
struct Mark {
    from: u64,
    to: u64,
    body: u8,
    head: u8,
}

// NOT is on below the rail's cells, POT beyond them.
const SWITCHES: Frame = Frame {
    left: b'N',
    right: b'P',
    between: b'.',
};

// The frame of all rows but the rail's.
const PLAIN: Frame = Frame {
    left: b'|',
    right: b'|',
    between: b' ',
};

// How many columns the cells of a rail stand in.
fn columns(rail: Rail) -> u64
    ensures value { result ≡ columns rail }
    ensures most { result ≤ 58 }
{
    rail.length.min(58) as u64
}

fn column_of(rail: Rail, cell: i64) -> u64
    ensures { result ≡ column_of rail cell }
{
    let columns = columns(rail);
    let length = rail.length as u64;
    match u64::try_from(cell) {
        Err(_) => 0,
        Ok(place) if place < length => 1 + place * columns / length,
        Ok(_) => columns + 1,
    }
}

fn spans(mark: Mark, column: u64) -> bool
    ensures { result ≡ spans mark column }
{
    (mark.from..=mark.to).contains(&column) || (mark.to..=mark.from).contains(&column)
}

#[tactic(auto, unfolding(crate::specs::Strip::glyph_at))]
fn glyph_at(columns: u64, frame: Frame, mark: Mark, column: u64) -> u8
    ensures { result ≡ glyph_at columns frame mark column }
{
    if column == mark.to {
        return mark.head;
    }
    if spans(mark, column) {
        return mark.body;
    }
    if column == 0 {
        return frame.left;
    }
    if column <= columns {
        frame.between
    } else {
        frame.right
    }
}

// A row's drawing.
fn strip(page: &mut Page, rail: Rail, frame: Frame, mark: Mark)
    ensures { seen page.new ≡ printed (seen page.old) (strip_text rail frame mark) }
{
    let columns = columns(rail);
    for column in 0..columns + 2 {
        page.byte(glyph_at(columns, frame, mark, column));
    }
}

// The cam, from its first cell to its last.
fn cam(rail: Rail) -> Mark
    ensures { result ≡ cam rail }
{
    let first = rail.cam as i64;
    let last = first + rail.width as i64 - 1;
    Mark {
        from: column_of(rail, first),
        to: column_of(rail, last),
        body: b'#',
        head: b'#',
    }
}

#[tactic(auto, using(page::proofs::Printing::printed_then))]
fn rail_row(page: &mut Page, rail: Rail)
    ensures { seen page.new ≡ printed (seen page.old) (rail_row rail) }
{
    strip(page, rail, SWITCHES, cam(rail));
    page.named(b" cells ", rail.length);
    page.byte(b'\n');
}

// A row with one glyph, in the column of a cell.
#[tactic(auto, using(page::proofs::Printing::printed_then))]
fn point_row(page: &mut Page, rail: Rail, cell: i64, glyph: u8, name: &[u8], number: i32)
    ensures { seen page.new ≡ printed (seen page.old) (point_row rail cell glyph name.now number) }
{
    let column = column_of(rail, cell);
    let mark = Mark {
        from: column,
        to: column,
        body: glyph,
        head: glyph,
    };
    strip(page, rail, PLAIN, mark);
    page.named(name, number);
    page.byte(b'\n');
}

fn leg_mark(rail: Rail, from: i64, leg: LegRun) -> Mark
    ensures { result ≡ leg_mark rail from leg }
{
    let forward = legs::is_forward(leg.route);
    let fast = legs::is_fast(leg.route);
    Mark {
        from: column_of(rail, from),
        to: column_of(rail, leg.cell),
        body: if fast { b'=' } else { b'-' },
        head: if forward { b'>' } else { b'<' },
    }
}

// A leg's direction, speed and ticks.
#[tactic(auto, using(page::proofs::Printing::printed_then))]
fn leg_text(page: &mut Page, leg: LegRun)
    ensures { seen page.new ≡ printed (seen page.old) (leg_text leg) }
{
    let forward = legs::is_forward(leg.route);
    let fast = legs::is_fast(leg.route);
    page.byte(b' ');
    page.byte(if forward { b'+' } else { b'-' });
    page.byte(if fast { b'F' } else { b'S' });
    page.named(b" ticks ", leg.ticks);
}

// A leg that began at a cell, and the cell where it ended. One with no tick did not run, and has no row.
fn leg_row(page: &mut Page, rail: Rail, from: i64, leg: LegRun) -> i64
    ensures text { seen page.new ≡ printed (seen page.old) (leg_row rail from leg) }
    ensures cell { result ≡ ended_at from leg }
{
    if leg.ticks == 0 {
        return from;
    }
    strip(page, rail, PLAIN, leg_mark(rail, from, leg));
    leg_text(page, leg);
    page.byte(b'\n');
    leg.cell
}

// The legs, each from the cell where the one before ended; where the last ended.
fn leg_rows(page: &mut Page, rail: Rail, start: i64, legs: &[LegRun]) -> i64
    ensures text { seen page.new ≡ printed (seen page.old) (leg_rows rail start legs.now) }
    ensures cell { result ≡ last_cell start legs.now }
{
    let mut cell = start;
    for leg in legs {
        cell = leg_row(page, rail, cell, *leg);
    }
    cell
}

// The cell where the run stopped, as the position that the axis was handed there. A refused run has no such row.
#[tactic(auto, using(page::proofs::Printing::printed_nothing))]
fn end_row(page: &mut Page, rail: Rail, cell: i64, stop: Stop)
    ensures { seen page.new ≡ printed (seen page.old) (end_row rail cell stop) }
{
    let position = counts::wrap(cell);
    match stop {
        Stop::None => {}
        Stop::Homed => point_row(page, rail, cell, b'H', b" home ", position),
        Stop::Failed => point_row(page, rail, cell, b'E', b" error ", position),
        Stop::Ticks => point_row(page, rail, cell, b'T', b" stopped ", position),
    }
}

// The rail, and a run on it: its start, its legs and its end, a row each.
pub fn picture(page: &mut Page, rail: Rail, start: i32, trace: Trace)
    ensures { seen page.new ≡ printed (seen page.old) (picture_text rail start trace) }
{
    let legs = [trace.first, trace.second, trace.third, trace.fourth];
    rail_row(page, rail);
    point_row(page, rail, start as i64, b'S', b" start ", start);
    let cell = leg_rows(page, rail, start as i64, &legs);
    end_row(page, rail, cell, trace.outcome.stop);
}
